//! How what answers an event is compared with what is stated of it.
ghost use Rattle.std.specs.Prelude.{◌≡◌};
ghost use Rattle.rt1553_verify.specs.Stated.{admits, fits_mask, fits, matching_of};

/// How what answers an event is compared with what is stated.
#[derive(Clone, Copy, Debug, PartialEq, Eq)]
pub enum Matching {
    /// It has to be the same line, or nothing where nothing is stated.
    Exact,
    /// It has to be a line that the mask admits: a dot stands for any digit.
    Masked,
    /// It has to be a line.
    AnyLine,
    /// It is not compared.
    Unchecked,
    /// The event may have come or not: a gap; or it is a slot in which the unit may have been silent, whatever it had to send. Only a recording has
    /// one, and nothing is stated of it.
    Maybe,
}

/// Whether a byte of a mask admits a byte of a line: a dot any digit, and any other itself.
fn admits(mask: u8, byte: u8) -> bool
    ensures { result ≡ admits mask byte }
{
    if mask == b'.' {
        matches!(byte, b'0'..=b'9' | b'a'..=b'f')
    } else {
        mask == byte
    }
}

/// Whether a mask admits a line, byte by byte.
fn fits_mask(mask: &[u8], line: &[u8]) -> bool
    ensures { result ≡ fits_mask mask.now line.now }
{
    let (mut masks, mut bytes) = (mask, line);
    while let [first, more @ ..] = masks {
        let [byte, others @ ..] = bytes else {
            return false;
        };
        if !admits(*first, *byte) {
            return false;
        }
        masks = more;
        bytes = others;
    }
    bytes.is_empty()
}

impl Matching {
    /// How a line is compared with a mask: `*` stands for any line.
    pub fn of_mask(mask: &[u8]) -> Matching
        ensures { result ≡ matching_of mask.now }
    {
        match mask {
            [b'*'] => Matching::AnyLine,
            _ => Matching::Masked,
        }
    }

    /// Whether what came, a line or nothing, is as stated.
    pub fn fits(self, answer: &[u8], came: &[u8]) -> bool
        ensures { result ≡ fits self answer.now came.now }
    {
        match self {
            Matching::Exact => came == answer,
            Matching::Masked => fits_mask(answer, came),
            Matching::AnyLine => !came.is_empty(),
            Matching::Unchecked | Matching::Maybe => true,
        }
    }
}
