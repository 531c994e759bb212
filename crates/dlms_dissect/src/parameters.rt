//! The parameters of a link, which an SNRM proposes and a UA answers.

ghost use Rattle.std.specs.Prelude.{◌≡◌, ℕ, ◌<◌, ◌+◌, ◌∷◌, ◌++◌, length, option_map, List, IfSome, MatchOption};
ghost use Rattle.dlms_dissect.specs.Parameters.{AreTold, BeginsNone, IsTold, Parameter, group_in, has_lawful_length, nothing, number_of, with_number};

/// The format of the information in which a link's parameters stand.
const FORMAT: u8 = 0x81;

/// The group of these parameters.
const GROUP: u8 = 0x80;

/// The link parameters of a group (IEC 62056-46, HDLC parameter negotiation); if one occurs twice, the last.
#[derive(Clone, Copy)]
pub struct Parameters {
    /// 05: the most octets of information in a frame that the sender sends.
    pub sent: Option<u32>,
    /// 06: the most that it receives.
    pub received: Option<u32>,
    /// 07: how many frames it sends before it waits.
    pub window_sent: Option<u32>,
    /// 08: how many it receives.
    pub window_received: Option<u32>,
    /// The identifier of the last one of these whose value has another length than one, two or four octets.
    pub wrong: Option<u8>,
    /// The number of octets after the last parameter.
    pub behind: usize,
}

impl Parameters {
    /// No parameter yet.
    fn none() -> Parameters
        ensures { result ≡ nothing }
    {
        Parameters {
            sent: None,
            received: None,
            window_sent: None,
            window_received: None,
            wrong: None,
            behind: 0,
        }
    }

    /// The same with one parameter more; others than the four are passed over, and so is a value of a wrong length.
    fn with(self, id: u8, value: &[u8]) -> Parameters
        ensures { result ≡ with_number self id value.now }
    {
        if !has_lawful_length(id, value.len()) {
            return Parameters {
                wrong: Some(id),
                ..self
            };
        }
        let number = number_of(value);
        match id {
            5 => Parameters {
                sent: Some(number),
                ..self
            },
            6 => Parameters {
                received: Some(number),
                ..self
            },
            7 => Parameters {
                window_sent: Some(number),
                ..self
            },
            8 => Parameters {
                window_received: Some(number),
                ..self
            },
            _ => self,
        }
    }
}

/// Whether a parameter may have a value of this length.
fn has_lawful_length(id: u8, len: usize) -> bool
    ensures { result ≡ has_lawful_length id len }
{
    if 5 <= id && id <= 8 {
        len == 1 || len == 2 || len == 4
    } else {
        true
    }
}

/// The number of one, two or four octets; 0 of others.
fn number_of(octets: &[u8]) -> u32
    ensures { result ≡ number_of octets.now }
{
    match octets {
        [a] => u32::from(*a),
        [a, b] => u32::from(*a) * 256 + u32::from(*b),
        [a, b, c, d] => {
            ((u32::from(*a) * 256 + u32::from(*b)) * 256 + u32::from(*c)) * 256 + u32::from(*d)
        }
        _ => 0,
    }
}

/// The parameter at the front, as its identifier and its value, and the bytes after it.
fn first_parameter(bytes: &[u8]) -> Option<(u8, &[u8], &[u8])>
    ensures found { MatchOption result (BeginsNone bytes.now)
        (λ r. bytes.now ≡ r.0 ∷ length r.1.now ∷ (r.1.now ++ r.2.now)) }
    ensures shorter { IfSome result (λ r. length r.2.now < length bytes.now) }
{
    let (id, rest) = bytes.split_first()?;
    let (len, rest) = rest.split_first()?;
    let len = usize::from(*len);
    if len <= rest.len() {
        Some((*id, &rest[..len], &rest[len..]))
    } else {
        None
    }
}

/// The parameters of a group, one after another, and the number of octets after them.
fn group(bytes: &[u8], surplus: usize) -> Parameters
    ensures { AreTold bytes.now surplus result }
{
    let mut parameters = Parameters::none();
    let mut rest = bytes;
    'group: while let Some((id, value, behind)) = first_parameter(rest) {
        parameters = parameters.with(id, value);
        rest = behind;
    }
    Parameters {
        behind: rest.len().saturating_add(surplus),
        ..parameters
    }
}

/// The octets of a group, and the number of octets of the information after it.
fn group_in(info: &[u8]) -> Option<(&[u8], usize)>
    ensures { option_map (λ found. (found.0.now, found.1)) result ≡ group_in info.now }
{
    match info {
        [format, id, len, octets @ ..] if *format == FORMAT && *id == GROUP => {
            let len = usize::from(*len).min(octets.len());
            Some((&octets[..len], octets.len() - len))
        }
        _ => None,
    }
}

/// The parameters in the information of an SNRM or a UA: none, or a group of them. An invalid one hides no other.
pub fn parameters_of(info: &[u8]) -> Option<Parameters>
    ensures { IsTold info.now result }
{
    if info.is_empty() {
        return Some(Parameters::none());
    }
    let (octets, surplus) = group_in(info)?;
    Some(group(octets, surplus))
}
