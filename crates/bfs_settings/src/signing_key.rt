ghost use Rattle.std.specs.Prelude.{◌≡◌, ◌<◌, codes, length};
ghost use Rattle.lms.specs.Levels.{most_levels};
ghost use Rattle.toml.specs.Data.{get_member};
ghost use Rattle.toml.specs.View.{table_view, view};
ghost use Rattle.bfs_settings.specs.Outcomes.{Gives};
ghost use Rattle.bfs_settings.specs.SigningDocument.{id_in, levels_in, signing_key_in, signing_key_of, signing_key_said, signing_key_spelled, tree_of, types_in};

use crate::error::SettingsError;
use crate::keys_document::key_in;
use crate::tables::{has_only, number_in, read_table, value_at};
use hex::FromHex;
use lms::{LmsType, MOST_LEVELS, OtsType, PrivateKey, TreeTypes};
use std::alloc::Global;
use toml::{Table, Value};

/// What makes a client's signatures (HSS, RFC 8554 section 6.2): what `lms::Signer` is made from.
#[derive(Drop)]
pub struct SigningKey {
    /// The private key of the first tree, from whose seed all others are made.
    pub first: PrivateKey,
    /// The types of the trees of the levels below.
    pub below: Vec<TreeTypes>,
    pub ghost levels: { length below.items < most_levels },
}

fn id_in(value: &Value) -> Option<[u8; 16]>
    ensures { result ≡ id_in (view value.now) }
{
    <[u8; 16]>::from_hex(value.as_str()?).ok()
}

fn tree_of(height: u32) -> Option<LmsType>
    ensures { result ≡ tree_of height }
{
    match height {
        5 => Some(LmsType::H5),
        10 => Some(LmsType::H10),
        15 => Some(LmsType::H15),
        _ => None,
    }
}

fn types_in(value: &Value) -> Option<TreeTypes>
    ensures { result ≡ types_in (view value.now) }
{
    Some(TreeTypes {
        lms: tree_of(number_in(value)?)?,
        ots: OtsType::W4,
    })
}

fn levels_in(alloc: Global, value: &Value) -> Result<Vec<TreeTypes>, SettingsError>
    ensures { Gives (λ levels. levels.items) result (levels_in (view value.now)) }
{
    let values = value.as_array().ok_or(SettingsError::BadSettings)?;
    let mut levels = Vec::new(alloc);
    for value in values {
        levels.push(types_in(value).ok_or(SettingsError::BadSettings)?)?;
    }
    Ok(levels)
}

fn signing_key_of(
    alloc: Global,
    id: [u8; 16],
    seed: [u8; 32],
    levels: &[TreeTypes],
) -> Result<SigningKey, SettingsError>
    ensures { Gives (λ key. record { first = key.first; below = key.below.items }) result (signing_key_of id seed levels.now) }
{
    match levels {
        [TreeTypes { lms, ots }, below @ ..] if below.len() < MOST_LEVELS as usize => {
            Ok(SigningKey {
                first: PrivateKey {
                    lms: *lms,
                    ots: *ots,
                    id,
                    seed,
                },
                below: below.to_vec(alloc)?,
            })
        }
        _ => Err(SettingsError::BadSettings),
    }
}

// whatever other keys there are
fn signing_key_said(alloc: Global, table: &Table) -> Result<SigningKey, SettingsError>
    ensures { Gives (λ key. record { first = key.first; below = key.below.items }) result (signing_key_said (table_view table.now)) }
{
    let bad = SettingsError::BadSettings;
    let id = value_at(table, "id").and_then(id_in).ok_or(bad)?;
    let seed = value_at(table, "seed").and_then(key_in).ok_or(bad)?;
    let levels = levels_in(alloc, value_at(table, "heights").ok_or(bad)?)?;
    signing_key_of(alloc, id, seed, levels.as_slice())
}

#[tactic(auto, unfolding(crate::specs::SigningDocument::signing_key_in))]
fn signing_key_in(alloc: Global, table: &Table) -> Result<SigningKey, SettingsError>
    ensures { Gives (λ key. record { first = key.first; below = key.below.items }) result (signing_key_in (table_view table.now)) }
{
    if has_only(table, &["id", "seed", "heights"]) {
        signing_key_said(alloc, table)
    } else {
        Err(SettingsError::BadSettings)
    }
}

/// Reads what makes signatures from a private document of TOML, which has three keys:
///
/// - `id`, a text of 32 hexadecimal digits, in either case: 16 bytes that tell its first tree from every other one.
/// - `seed`, a text of 64 such digits: 32 random bytes, from which all its secrets are made.
/// - `heights`, an array of one to eight numbers, a tree's height for each level from the first on: 5, 10 or 15. A tree of height h signs 2^h times.
///
/// One-time signatures are LMOTS_SHA256_N32_W4 (RFC 8554 section 4.1). `SettingsError::BadSettings` comes for all else, and for what is no TOML in UTF-8. It
/// tells nothing of what the document says.
#[tactic(auto, unfolding(crate::specs::SigningDocument::signing_key_spelled))]
pub fn parse_signing_key(alloc: Global, document: &[u8]) -> Result<SigningKey, SettingsError>
    ensures { Gives (λ key. record { first = key.first; below = key.below.items }) result (signing_key_spelled document.now) }
{
    signing_key_in(alloc, &read_table(alloc, document)?)
}
