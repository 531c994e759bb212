//! The protection of messages under security suite 0 (Green Book 9.2.7).
ghost use Rattle.std.specs.Prelude.{◌≡◌, ◌↔◌, IsOk, OnOk, OnErr, IsTrue, ◌∷◌, ◌++◌};
ghost use Rattle.std.specs.Int.{w32, to_be_bytes};
ghost use Rattle.dlms_cipher.specs.Dlms.{nonce_of, cipher_of, sealed_tag, signed_tag, answer_of, IsAnswer};
ghost use Rattle.dlms_cipher.specs.Keys.{encryption_key, authentication_key};

use crate::gcm::{Gcm, same_tag};

/// The security control octet of messages that are authenticated only, and of answers to challenges.
const AUTHENTICATED: u8 = 0x10;

/// The security control octet of messages that are authenticated and encrypted.
const AUTHENTICATED_ENCRYPTED: u8 = 0x30;

/// The error of [`Keys::open`]: the tag is not the message's, so the message is not authentic or was damaged.
#[derive(Clone, Copy, Debug, PartialEq, Eq)]
pub struct WrongTag;

/// The global unicast encryption key and the authentication key that a client and a meter share, with the tables made from
/// them: some 500 octets.
///
/// Every call takes the system title of the message's sender in 8 octets, and the message's invocation counter. The crate
/// counts nothing. A CALLER MUST NOT protect or answer twice with the same title and counter under one key: two such
/// messages reveal the sum of their texts and help to forge tags. A caller that must not accept a message twice compares the
/// counters. A text must be shorter than 2^36 - 31 octets (SP 800-38D, 5.2.1.1). Dropping the keys does not wipe them.
#[derive(Drop)]
pub struct Keys {
    encryption: Gcm,
    authentication: [u8; 16],
}

/// The initialization vector of a sender's system title and an invocation counter.
fn nonce(title: &[u8; 8], counter: u32) -> [u8; 12]
    ensures { result ≡ nonce_of title.now counter }
{
    let [c0, c1, c2, c3] = counter.to_be_bytes();
    [
        title[0], title[1], title[2], title[3], title[4], title[5], title[6], title[7], c0, c1, c2,
        c3,
    ]
}

impl Keys {
    /// Expands the block cipher key `encryption` and keeps the authentication key. The caller's copies stay as they are.
    pub fn new(encryption: [u8; 16], authentication: [u8; 16]) -> Keys
        ensures encryption { encryption_key result ≡ encryption }
        ensures authentication { authentication_key result ≡ authentication }
    {
        Keys {
            encryption: Gcm::new(encryption),
            authentication,
        }
    }

    /// The start of the additional authenticated data: the control octet and the authentication key.
    fn head(&self, control: u8) -> [u8; 17]
        ensures { result ≡ control ∷ authentication_key self.now }
    {
        let k = &self.authentication;
        [
            control, k[0], k[1], k[2], k[3], k[4], k[5], k[6], k[7], k[8], k[9], k[10], k[11],
            k[12], k[13], k[14], k[15],
        ]
    }

    /// Encrypts a message in place, or decrypts a ciphertext (security control 0x20). Nothing authenticates it: a changed
    /// bit of the ciphertext is a changed bit of the message.
    pub fn cipher(&self, title: &[u8; 8], counter: u32, text: &mut [u8])
        ensures { text.new ≡ cipher_of (encryption_key self.now) title.now counter text.old }
    {
        self.encryption.apply(&nonce(title, counter), text);
    }

    /// Encrypts a message in place and returns the tag to send after it (security control 0x30).
    pub fn seal(&self, title: &[u8; 8], counter: u32, text: &mut [u8]) -> [u8; 12]
        ensures text { text.new ≡ cipher_of (encryption_key self.now) title.now counter text.old }
        ensures tag { result ≡ sealed_tag (encryption_key self.now) (authentication_key self.now) title.now counter text.new }
    {
        let nonce = nonce(title, counter);
        self.encryption.apply(&nonce, text);
        self.encryption
            .tag(&nonce, &self.head(AUTHENTICATED_ENCRYPTED), &[], text)
    }

    /// Decrypts a ciphertext in place if the tag is its tag (security control 0x30). On `WrongTag` the slice is unchanged.
    /// The caller has compared the counter with those that it accepted before.
    pub fn open(
        &self,
        title: &[u8; 8],
        counter: u32,
        text: &mut [u8],
        tag: &[u8; 12],
    ) -> Result<(), WrongTag>
        ensures tag { IsOk result ↔ (tag.now ≡ sealed_tag (encryption_key self.now) (authentication_key self.now) title.now counter text.old) }
        ensures text { OnOk result (text.new ≡ cipher_of (encryption_key self.now) title.now counter text.old) }
        ensures unchanged { OnErr result (text.new ≡ text.old) }
    {
        let nonce = nonce(title, counter);
        let expected = self
            .encryption
            .tag(&nonce, &self.head(AUTHENTICATED_ENCRYPTED), &[], text);
        if same_tag(tag, &expected) {
            self.encryption.apply(&nonce, text);
            Ok(())
        } else {
            Err(WrongTag)
        }
    }

    /// Returns the tag to send after a message that is authenticated only (security control 0x10).
    pub fn sign(&self, title: &[u8; 8], counter: u32, text: &[u8]) -> [u8; 12]
        ensures { result ≡ signed_tag (encryption_key self.now) (authentication_key self.now) title.now counter text.now }
    {
        self.encryption.tag(&nonce(title, counter), &self.head(AUTHENTICATED), text, &[])
    }

    /// Whether the tag is that of a message that is authenticated only (security control 0x10).
    pub fn is_signed(&self, title: &[u8; 8], counter: u32, text: &[u8], tag: &[u8; 12]) -> bool
        ensures { IsTrue result ↔ (tag.now ≡ signed_tag (encryption_key self.now) (authentication_key self.now) title.now counter text.now) }
    {
        same_tag(tag, &self.sign(title, counter, text))
    }

    /// Returns the answer to the peer's challenge under authentication mechanism 5: the control octet, the counter in four
    /// octets, the tag in twelve (Green Book 9.2.7.4). It uses the counter up, as a message does.
    pub fn answer(&self, title: &[u8; 8], counter: u32, challenge: &[u8]) -> [u8; 17]
        ensures { result ≡ answer_of (encryption_key self.now) (authentication_key self.now) title.now counter challenge.now }
    {
        let [c0, c1, c2, c3] = counter.to_be_bytes();
        let [t0, t1, t2, t3, t4, t5, t6, t7, t8, t9, t10, t11] = self.sign(
            title, counter, challenge,
        );
        [
            AUTHENTICATED,
            c0,
            c1,
            c2,
            c3,
            t0,
            t1,
            t2,
            t3,
            t4,
            t5,
            t6,
            t7,
            t8,
            t9,
            t10,
            t11,
        ]
    }

    /// Whether these octets are the answer of the peer with this title to the caller's challenge, under the invocation
    /// counter in them. The challenge must be fresh: an answer to an old one may be a replay.
    pub fn is_answer(&self, title: &[u8; 8], challenge: &[u8], answer: &[u8; 17]) -> bool
        ensures { IsTrue result ↔ IsAnswer (encryption_key self.now) (authentication_key self.now) title.now challenge.now answer.now }
    {
        let [
            control,
            c0,
            c1,
            c2,
            c3,
            t0,
            t1,
            t2,
            t3,
            t4,
            t5,
            t6,
            t7,
            t8,
            t9,
            t10,
            t11,
        ] = *answer;
        let counter = u32::from_be_bytes([c0, c1, c2, c3]);
        let tag = [t0, t1, t2, t3, t4, t5, t6, t7, t8, t9, t10, t11];
        control == AUTHENTICATED && self.is_signed(title, counter, challenge, &tag)
    }
}
