ghost use Rattle.std.specs.Prelude.{◌≡◌};
ghost use Rattle.lms.specs.Types.{chain_count, checksum_shift, hash_digits, height, last_step, leaf_count, lms_code, lms_type, ots_code, ots_type};

/// A type of one-time signatures (LM-OTS, RFC 8554 section 4.1), with SHA-256 and hashes of 32 bytes. It says how many bits of a hash one chain signs: more
/// make a signature shorter, and take more steps.
#[derive(Clone, Copy, Debug, PartialEq, Eq)]
pub enum OtsType {
    /// One bit: 265 chains of one step.
    W1,
    /// Two bits: 133 chains of 3 steps.
    W2,
    /// Four bits: 67 chains of 15 steps.
    W4,
    /// Eight bits: 34 chains of 255 steps.
    W8,
}

impl OtsType {
    /// The type that has this typecode, if one has.
    pub fn from_code(code: u32) -> Option<OtsType>
        ensures { result ≡ ots_type code }
    {
        match code {
            1 => Some(OtsType::W1),
            2 => Some(OtsType::W2),
            3 => Some(OtsType::W4),
            4 => Some(OtsType::W8),
            _ => None,
        }
    }

    /// Its typecode.
    pub fn code(self) -> u32
        ensures { result ≡ ots_code self }
    {
        match self {
            OtsType::W1 => 1,
            OtsType::W2 => 2,
            OtsType::W4 => 3,
            OtsType::W8 => 4,
        }
    }

    /// How many chains a signature cuts, each of which takes 32 of its bytes.
    pub fn chain_count(self) -> u16
        ensures { result ≡ chain_count self }
    {
        match self {
            OtsType::W1 => 265,
            OtsType::W2 => 133,
            OtsType::W4 => 67,
            OtsType::W8 => 34,
        }
    }

    // the number of steps of a chain
    pub(crate) fn last_step(self) -> u8
        ensures { result ≡ last_step self }
    {
        match self {
            OtsType::W1 => 1,
            OtsType::W2 => 3,
            OtsType::W4 => 15,
            OtsType::W8 => 255,
        }
    }

    pub(crate) fn hash_digits(self) -> u16
        ensures { result ≡ hash_digits self }
    {
        match self {
            OtsType::W1 => 256,
            OtsType::W2 => 128,
            OtsType::W4 => 64,
            OtsType::W8 => 32,
        }
    }

    pub(crate) fn checksum_shift(self) -> u32
        ensures { result ≡ checksum_shift self }
    {
        match self {
            OtsType::W1 => 7,
            OtsType::W2 => 6,
            OtsType::W4 => 4,
            OtsType::W8 => 0,
        }
    }
}

/// A type of trees (LMS, RFC 8554 section 5.1), with SHA-256 and hashes of 32 bytes: a tree of height h has 2^h leaves, each of which signs once.
#[derive(Clone, Copy, Debug, PartialEq, Eq)]
pub enum LmsType {
    H5,
    H10,
    H15,
    H20,
    H25,
}

impl LmsType {
    /// The type that has this typecode, if one has.
    pub fn from_code(code: u32) -> Option<LmsType>
        ensures { result ≡ lms_type code }
    {
        match code {
            5 => Some(LmsType::H5),
            6 => Some(LmsType::H10),
            7 => Some(LmsType::H15),
            8 => Some(LmsType::H20),
            9 => Some(LmsType::H25),
            _ => None,
        }
    }

    /// Its typecode.
    pub fn code(self) -> u32
        ensures { result ≡ lms_code self }
    {
        match self {
            LmsType::H5 => 5,
            LmsType::H10 => 6,
            LmsType::H15 => 7,
            LmsType::H20 => 8,
            LmsType::H25 => 9,
        }
    }

    /// How many levels a tree has above its leaves.
    pub fn height(self) -> u32
        ensures { result ≡ height self }
    {
        match self {
            LmsType::H5 => 5,
            LmsType::H10 => 10,
            LmsType::H15 => 15,
            LmsType::H20 => 20,
            LmsType::H25 => 25,
        }
    }

    /// How many leaves a tree has.
    pub fn leaf_count(self) -> u32
        ensures { result ≡ leaf_count self }
    {
        1 << self.height()
    }
}

/// The types of a tree and of its one-time signatures.
#[derive(Clone, Copy, Debug, PartialEq, Eq)]
pub struct TreeTypes {
    /// Of the tree.
    pub lms: LmsType,
    /// Of its one-time signatures.
    pub ots: OtsType,
}
