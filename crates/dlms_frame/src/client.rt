//! The clients that may speak to the meter, and what holds of each: a row for each client in every table below.
ghost use Rattle.std.specs.Prelude.{◌≡◌, ◌<◌, ◌↔◌, Some};
ghost use Rattle.dlms_frame.specs.Client.{sap_of, has_secret, client_of};
ghost use Rattle.dlms_frame.specs.declared.client.Client.{Client};

/// A client of the meter: a service access point, and with it a set of rights.
#[derive(Clone, Copy, Debug, PartialEq, Eq)]
pub enum Client {
    /// Reads what anyone may read, and proves nothing of itself.
    Public,
    /// Reads and sets, and has to know a secret.
    Management,
    /// Reads what management reads, sets nothing but its own secret, and has to know it.
    Reader,
}

impl Client {
    /// The client's service access point: the address, of one byte, that its frames come from.
    pub fn sap(self) -> u8
        ensures value { result ≡ sap_of self }
        ensures fits { result < 128 }
    {
        match self {
            Client::Public => 16,
            Client::Management => 1,
            Client::Reader => 2,
        }
    }

    /// The client of this service access point, if it is one's.
    pub fn of_sap(sap: u8) -> Option<Client>
        ensures value { result ≡ client_of sap }
        ensures exactly { (client : Client) → (result ≡ Some client) ↔ (sap ≡ sap_of client) }
    {
        match sap {
            16 => Some(Client::Public),
            1 => Some(Client::Management),
            2 => Some(Client::Reader),
            _ => None,
        }
    }

    /// Whether the client has to know a secret of its own to associate.
    pub fn has_secret(self) -> bool
        ensures { result ≡ has_secret self }
    {
        match self {
            Client::Public => false,
            Client::Management | Client::Reader => true,
        }
    }
}
