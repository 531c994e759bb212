//! The secret that each client knows.

ghost use Rattle.std.specs.Prelude.{◌≡◌, is_some};
ghost use Rattle.dlms_frame.specs.Client.{has_secret};
ghost use Rattle.dlms_classes.specs.Secrets.{secret_of as own};

use dlms_frame::Client;
use dlms_state::SecretOf;

/// The client's own secret, if it has one: the one that it associates with, and the only one that it may set.
pub fn secret_of(client: Client) -> Option<SecretOf>
    ensures own { result ≡ own client }
    ensures known { is_some result ≡ has_secret client }
{
    match client {
        Client::Public => None,
        Client::Management => Some(SecretOf::Management),
        Client::Reader => Some(SecretOf::Reader),
    }
}
