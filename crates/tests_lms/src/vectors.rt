use anyhow::{Context, Error};
use lms::{
    LmsType, MOST_LEVELS, OtsType, PrivateKey, SignError, Signer, Tree, TreeTypes, hss_verify,
    verify,
};
use std::alloc::Global;

// a signature of one tree, or of several levels
#[derive(Clone, Copy, PartialEq, Eq)]
pub enum Kind {
    Lms,
    Hss,
}

impl Kind {
    pub fn verify(self, public_key: &[u8], text: &[u8], signature: &[u8]) -> bool {
        match self {
            Kind::Lms => verify(public_key, text, signature),
            Kind::Hss => hss_verify(public_key, text, signature),
        }
    }
}

// by which private key and index it was made
#[derive(Clone, Copy)]
pub enum Maker {
    Tree(PrivateKey, u32),
    Levels(PrivateKey, &'static [TreeTypes], u32),
}

// the types of the levels below the first
pub static BELOW: [TreeTypes; 2] = [
    TreeTypes {
        lms: LmsType::H5,
        ots: OtsType::W4,
    },
    TreeTypes {
        lms: LmsType::H5,
        ots: OtsType::W4,
    },
];

fn below(levels: &str) -> Result<&'static [TreeTypes], Error> {
    match levels {
        "1" => Ok(&BELOW[..0]),
        "2" => Ok(&BELOW[..1]),
        "3" => Ok(&BELOW[..2]),
        _ => Err(Error::msg("no number of levels")),
    }
}

#[derive(Drop)]
pub struct Vector {
    pub kind: Kind,
    pub name: String,
    pub text: Vec<u8>,
    pub public_key: Vec<u8>,
    pub signature: Vec<u8>,
    pub made_by: Maker,
}

impl Vector {
    pub fn read(alloc: Global, line: &str) -> Result<Vector, Error> {
        let words: Vec<&str> = line.split(' ').collect(alloc)?;
        match words.as_slice() {
            ["lms", lms, ots, id, seed, leaf, text, public_key, signature] => Ok(Vector {
                kind: Kind::Lms,
                name: format!(in alloc; "tree {lms}, one-time {ots}, leaf {leaf}")?,
                text: bytes(alloc, text)?,
                public_key: bytes(alloc, public_key)?,
                signature: bytes(alloc, signature)?,
                made_by: Maker::Tree(private_key(lms, ots, id, seed)?, number(leaf)?),
            }),
            ["hss", levels, id, seed, index, text, public_key, signature] => Ok(Vector {
                kind: Kind::Hss,
                name: format!(in alloc; "levels {levels}, index {index}")?,
                text: bytes(alloc, text)?,
                public_key: bytes(alloc, public_key)?,
                signature: bytes(alloc, signature)?,
                made_by: Maker::Levels(
                    private_key("5", "4", id, seed)?,
                    below(levels)?,
                    number(index)?,
                ),
            }),
            _ => Err(Error::msg("a line is no vector")),
        }
    }

    // whether the private key makes the same public key and signature, and no index behind its last one signs
    pub fn is_made(&self, alloc: Global) -> Result<bool, Error> {
        match self.made_by {
            Maker::Tree(key, leaf) => {
                let tree = Tree::new(alloc, key)?;
                let signature = tree.sign(alloc, leaf, &self.text)?;
                let past = tree.sign(alloc, key.lms.leaf_count(), &self.text);
                Ok(self.is(&tree.public_key().to_bytes(), &signature) && is_refused(past))
            }
            Maker::Levels(key, below, index) => {
                let mut signer = signer(alloc, key, below)?;
                let signature = signer.sign(alloc, u64::from(index), &self.text)?;
                let past = signer.sign(alloc, 1 << 15, &self.text);
                Ok(self.is(&signer.public_key().to_bytes(), &signature) && is_refused(past))
            }
        }
    }

    fn is(&self, public_key: &[u8], signature: &[u8]) -> bool {
        public_key == self.public_key.as_slice() && signature == self.signature.as_slice()
    }
}

pub fn signer(alloc: Global, key: PrivateKey, below: &[TreeTypes]) -> Result<Signer, Error> {
    if below.len() >= MOST_LEVELS as usize {
        return Err(Error::msg("too many levels"));
    }
    Ok(Signer::new(alloc, key, below)?)
}

fn is_refused(signed: Result<Vec<u8>, SignError>) -> bool {
    match signed {
        Ok(_) => false,
        Err(error) => error == SignError::NoIndex,
    }
}

fn private_key(lms: &str, ots: &str, id: &str, seed: &str) -> Result<PrivateKey, Error> {
    let mut key = PrivateKey {
        lms: LmsType::from_code(number(lms)?).context("no type of trees")?,
        ots: OtsType::from_code(number(ots)?).context("no type of one-time signatures")?,
        id: [0; 16],
        seed: [0; 32],
    };
    hex::decode_to_slice(id, &mut key.id)?;
    hex::decode_to_slice(seed, &mut key.seed)?;
    Ok(key)
}

fn number(word: &str) -> Result<u32, Error> {
    word.parse::<u32>().context("a word is no number")
}

fn bytes(alloc: Global, word: &str) -> Result<Vec<u8>, Error> {
    if word == "-" {
        return Ok(Vec::new(alloc));
    }
    hex::decode(alloc, word).context("a word is no bytes")
}
