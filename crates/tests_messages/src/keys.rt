//! Keys of one principal alone: those that it was given, and what its private document says. Python's hmac made the keys of the documents,
//! under a secret of 32 zeros.
ghost use Rattle.std.specs.Prelude.{◌<◌, ◌^◌};
ghost use Rattle.bfs_auth.specs.Principals.{number_of};

use bfs_auth::{Authenticator, Keys, Pair, Principal, check, sign, sign_for_client};
use bfs_settings::parse_keys;
use bfs_testing::asserts::compared;
use bfs_testing::{holds, same};
use bfs_types::Memory;
use std::alloc::{AllocError, Global};
use std::test::Fail;

// of the third of four replicas, where there are two clients
const REPLICA: &[u8] = br#"me = { replica = 2 }
replicas = [
    { sending = "e16d09077ce0b715c25d0468ee9cbda83566999e765a6cb54767f61359947fcf", receiving = "c9fd8f5cd4e947bb0901fdf4726309b3bbce7c8a3f3b20ec4a0f3857cd908c31" },
    { sending = "dbd89c20b2df55b64c1eadd67f652d1702fcee4614f2737c86eb4557f40da011", receiving = "9f47a4ea6cd945cff0e0ca8914123e5d4de6abdb651b5fe45fc8878583a5dcca" },
    { sending = "931c8451af800b33d5fde90c2fff0244841d5b7adeb1a3c2807a9c167e0df308", receiving = "931c8451af800b33d5fde90c2fff0244841d5b7adeb1a3c2807a9c167e0df308" },
    { sending = "e85e610b438d400e93555d5b72535ce4b34027eeb4a43a52d031b10644dcc730", receiving = "dab3d727cc330e2e1858fcd742b18367a449dfdc008f2e0c7890bad64ee67daf" },
]
clients = [
    { sending = "f19cea8fb2d36639cd2776848180ccba938d99cf7649200f328c12b358e52c87", receiving = "51cf48d763c764870dd05fe4b7e4f02a90c0da6ec0bee397845b1fdf0430277a" },
    { sending = "998e8b1692a1988aa5f4327e299293e82f3c27e03e9593935d601c24aa1c22b1", receiving = "87e53e492f9145b070365c1310ca28ce5ee79e00cf68ebba46decd5432a62b7f" },
]
"#;

// of the second client of four replicas
const CLIENT: &[u8] = br#"[me]
client = 1

[[replicas]]
receiving = 'E957CCCC0229814DE0961829F529970D5A75879E9A7CC026AF1C3695A0A6DCED'
sending = '6cc48c3b0a9607528272fde7fcf7a9d5cdcbf63f3fc90d986905aaff8f33a0d1'

[[replicas]]
receiving = 'EE6FDCD84AD0358785856F8C8DCB3CBBC1EE528008E9BEF81E411A1CA9F09B43'
sending = '6d6d3ee7b007e06b0888d813a547f02d136c30a6c21153056881443f9ac059d5'

[[replicas]]
receiving = '998E8B1692A1988AA5F4327E299293E82F3C27E03E9593935D601C24AA1C22B1'
sending = '87e53e492f9145b070365c1310ca28ce5ee79e00cf68ebba46decd5432a62b7f'

[[replicas]]
receiving = '34F6D5A8CE7F8C4472E2C6DC621311DF35A110C5FA2525A1271EC3F7753B68FA'
sending = '49208b290f4363cb1b56cda549d49918b5ee585bfe835a27bee92163e040e52d'
"#;

// of 4 replicas and 2 clients
fn derived(alloc: Global, me: Principal) -> Result<Keys, Memory>
    requires { number_of me < 2 ^ 32 }
{
    Keys::derive(alloc, &[0; 32], me, 4, 2)
}

const TEXT: &[u8] = b"a text";

// one with no entries where they share no keys with that client
fn signed_for(alloc: Global, keys: &Keys, receiver: Principal) -> Result<Authenticator, Memory> {
    match receiver {
        Principal::Client(client) if (client as usize) < keys.clients() => {
            sign_for_client(alloc, keys, client, TEXT)
        }
        Principal::Client(_) => Ok(Authenticator::new(alloc)),
        Principal::Replica(_) => sign(alloc, keys, TEXT),
    }
}

fn sign_alike(
    alloc: Global,
    keys: &Keys,
    wanted: &Keys,
    receiver: Principal,
) -> Result<bool, Memory> {
    let auth = signed_for(alloc, keys, receiver)?;
    let wanted = signed_for(alloc, wanted, receiver)?;
    Ok(auth.entries() == wanted.entries())
}

// whether what each replica signs passes, and not under the next one's name
fn tell_senders(alloc: Global, keys: &Keys) -> Result<bool, Memory> {
    for number in 0u32..4 {
        let sender = derived(alloc, Principal::Replica(number))?;
        let auth = signed_for(alloc, &sender, keys.me())?;
        let next = Principal::Replica((number + 1) % 4);
        if !check(keys, sender.me(), TEXT, &auth) || check(keys, next, TEXT, &auth) {
            return Ok(false);
        }
    }
    Ok(true)
}

#[test]
fn a_replica_has_the_keys_of_its_document(rt: HostRuntime) -> Result<(), Fail> {
    let alloc = rt.alloc();
    let keys = parse_keys(alloc, REPLICA)?;
    let wanted = derived(alloc, Principal::Replica(2))?;
    same!(rt; keys.me(), Principal::Replica(2));
    same!(rt; (keys.replicas(), keys.clients()), (4, 2));
    holds!(rt; sign_alike(alloc, &keys, &wanted, Principal::Replica(0))?);
    holds!(rt; sign_alike(alloc, &keys, &wanted, Principal::Client(0))?);
    holds!(rt; sign_alike(alloc, &keys, &wanted, Principal::Client(1))?);
    holds!(rt; tell_senders(alloc, &keys)?);
    Ok(())
}

#[test]
fn a_replica_tells_clients(rt: HostRuntime) -> Result<(), Fail> {
    let alloc = rt.alloc();
    let keys = parse_keys(alloc, REPLICA)?;
    let client = Principal::Client(1);
    let auth = sign(alloc, &derived(alloc, client)?, TEXT)?;
    holds!(rt; check(&keys, client, TEXT, &auth));
    holds!(rt; !check(&keys, Principal::Client(0), TEXT, &auth));
    holds!(rt; !check(&keys, client, b"another", &auth));
    Ok(())
}

#[test]
fn a_client_has_the_keys_of_its_document(rt: HostRuntime) -> Result<(), Fail> {
    let alloc = rt.alloc();
    let keys = parse_keys(alloc, CLIENT)?;
    let wanted = derived(alloc, Principal::Client(1))?;
    same!(rt; keys.me(), Principal::Client(1));
    same!(rt; (keys.replicas(), keys.clients()), (4, 0));
    holds!(rt; sign_alike(alloc, &keys, &wanted, Principal::Replica(0))?);
    holds!(rt; tell_senders(alloc, &keys)?);
    Ok(())
}

#[test]
fn keys_are_of_a_replica_among_so_many(rt: HostRuntime) -> Result<(), Fail> {
    let alloc = rt.alloc();
    same!(rt; parse_keys(alloc, REPLICA)?.replica_of(), Some((1, 2)));
    same!(rt; parse_keys(alloc, CLIENT)?.replica_of(), None);
    same!(rt; derived(alloc, Principal::Replica(3))?.replica_of(), Some((1, 3)));
    same!(rt; derived(alloc, Principal::Replica(4))?.replica_of(), None);
    let pair = Pair {
        sending: [1; 32],
        receiving: [2; 32],
    };
    let me = Principal::Replica(0);
    let alone = Keys::of_pairs(alloc, me, &[pair], &[pair, pair])?;
    same!(rt; (alone.replicas(), alone.clients()), (1, 2));
    same!(rt; alone.replica_of(), Some((0, 0)));
    same!(rt; Keys::of_pairs(alloc, me, &[pair, pair], &[pair])?.replica_of(), None);
    Ok(())
}

const DIGITS: &[u8] = b"0123456789abcdefABCDEF0123456789abcdef0123456789ABCDEF0123456789";

const PAIR: &[u8] =
    b"{ receiving = \"0123456789abcdefABCDEF0123456789abcdef0123456789ABCDEF0123456789\", sending = '00112233445566778899aabbccddeeff00112233445566778899AABBCCDDEEFF' }";

// one key, in either case
const OWN_PAIR: &[u8] =
    b"{ sending = '0123456789abcdefABCDEF0123456789abcdef0123456789ABCDEF0123456789', receiving = '0123456789ABCDEFabcdef0123456789ABCDEF0123456789abcdef0123456789' }";

// the code of the refusal of a document in parts, and 0 where there is none
fn refusal(alloc: Global, parts: &[&[u8]]) -> Result<u32, AllocError> {
    let mut document = Vec::new(alloc);
    for part in parts {
        document.extend_from_slice(part)?;
    }
    match parse_keys(alloc, document.as_slice()) {
        Ok(_) => Ok(0),
        Err(error) => Ok(error.code()),
    }
}

// a pair so many times, each time with a comma behind it
fn pairs(alloc: Global, pair: &[u8], count: usize) -> Result<Vec<u8>, AllocError> {
    let mut text = Vec::new(alloc);
    for _ in 0..count {
        text.extend_from_slice(pair)?;
        text.extend_from_slice(b", ")?;
    }
    Ok(text)
}

// of a document that says who it is of, and has so many pairs
fn refusal_of(
    alloc: Global,
    me: &[u8],
    replicas: usize,
    clients: usize,
) -> Result<u32, AllocError> {
    refusal(
        alloc,
        &[
            b"me = ",
            me,
            b"\nreplicas = [",
            pairs(alloc, OWN_PAIR, replicas)?.as_slice(),
            b"]\nclients = [",
            pairs(alloc, PAIR, clients)?.as_slice(),
            b"]\n",
        ],
    )
}

// of the document of a replica of that number, with these pairs with replicas
fn refusal_among(alloc: Global, number: &[u8], pairs: &[&[u8]]) -> Result<u32, AllocError> {
    let mut parts = Vec::new(alloc);
    parts.push(b"me = { replica = ".as_slice())?;
    parts.push(number)?;
    parts.push(b" }\nreplicas = [".as_slice())?;
    for pair in pairs {
        parts.push(*pair)?;
        parts.push(b", ".as_slice())?;
    }
    parts.push(b"]\nclients = [".as_slice())?;
    parts.push(PAIR)?;
    parts.push(b"]\n".as_slice())?;
    refusal(alloc, parts.as_slice())
}

// of the document of a client of one replica, with these parts in place of the pair
fn refusal_with(alloc: Global, pair: &[&[u8]]) -> Result<u32, AllocError> {
    let mut parts = Vec::new(alloc);
    parts.push(b"me = { client = 0 }\nreplicas = [".as_slice())?;
    parts.extend_from_slice(pair)?;
    parts.push(b"]\n".as_slice())?;
    refusal(alloc, parts.as_slice())
}

/// A document.
#[derive(Clone, Copy)]
enum Document {
    /// It says who it is of, and has so many pairs with replicas and with clients.
    Of(&'static [u8], usize, usize),
    /// That of a replica of that number, with these pairs with replicas.
    Among(&'static [u8], &'static [&'static [u8]]),
    /// That of a client of one replica, with these parts in place of the pair.
    With(&'static [&'static [u8]]),
    /// It has these parts.
    Parts(&'static [&'static [u8]]),
}

use Document::{Among, Of, Parts, With};

impl Document {
    fn refusal(self, alloc: Global) -> Result<u32, AllocError> {
        match self {
            Of(me, replicas, clients) => refusal_of(alloc, me, replicas, clients),
            Among(number, pairs) => refusal_among(alloc, number, pairs),
            With(pair) => refusal_with(alloc, pair),
            Parts(parts) => refusal(alloc, parts),
        }
    }
}

/// A document, and the code of its refusal, or 0.
struct Case(Document, u32);

// the place of the first document that comes to something else
fn first_wrong(alloc: Global, cases: &[Case]) -> Result<Option<usize>, AllocError> {
    for (place, case) in cases.iter().enumerate() {
        if case.0.refusal(alloc)? != case.1 {
            return Ok(Some(place));
        }
    }
    Ok(None)
}

const A_REPLICA: &[u8] = b"{ replica = 0 }";

static REPLICAS: [Case; 8] = [
    Case(Of(A_REPLICA, 0, 1), 43),
    Case(Of(A_REPLICA, 1, 1), 0),
    Case(Of(A_REPLICA, 2, 1), 43),
    Case(Of(A_REPLICA, 3, 1), 43),
    Case(Of(A_REPLICA, 4, 1), 0),
    Case(Of(A_REPLICA, 5, 1), 43),
    Case(Of(A_REPLICA, 31, 1), 0),
    Case(Of(A_REPLICA, 34, 1), 43),
];

#[test]
fn there_are_3f_and_1_replicas(rt: HostRuntime) -> Result<(), Fail> {
    compared(first_wrong(rt.alloc(), &REPLICAS)?, None)?;
    Ok(())
}

static CLIENTS: [Case; 4] = [
    Case(Of(A_REPLICA, 1, 0), 43),
    Case(Of(A_REPLICA, 1, 1_024), 0),
    Case(Of(A_REPLICA, 1, 1_025), 43),
    Case(
        Parts(&[b"me = { replica = 0 }\nreplicas = [", PAIR, b"]\n"]),
        43,
    ),
];

#[test]
fn a_replica_has_keys_of_1_to_1024_clients(rt: HostRuntime) -> Result<(), Fail> {
    compared(first_wrong(rt.alloc(), &CLIENTS)?, None)?;
    Ok(())
}

static NO_CLIENTS: [Case; 3] = [
    Case(Of(b"{ client = 0 }", 1, 0), 0),
    Case(Of(b"{ client = 0 }", 1, 1), 43),
    Case(
        Parts(&[b"me = { client = 0 }\nreplicas = [", PAIR, b"]\n"]),
        0,
    ),
];

#[test]
fn a_client_has_keys_of_no_client(rt: HostRuntime) -> Result<(), Fail> {
    compared(first_wrong(rt.alloc(), &NO_CLIENTS)?, None)?;
    Ok(())
}

static OWNERS: [Case; 11] = [
    Case(Of(b"{ replica = 3 }", 4, 1), 0),
    Case(Of(b"{ replica = 4 }", 4, 1), 43),
    Case(Of(b"{ replica = -1 }", 4, 1), 43),
    Case(Of(b"{ replica = 4294967296 }", 4, 1), 43),
    Case(Of(b"{ replica = '0' }", 4, 1), 43),
    Case(Of(b"{ client = 1023 }", 4, 0), 0),
    Case(Of(b"{ client = 1024 }", 4, 0), 43),
    Case(Of(b"{ replica = 0, client = 0 }", 4, 1), 43),
    Case(Of(b"{ replica = 0, f = 1 }", 4, 1), 43),
    Case(Of(b"{ }", 4, 1), 43),
    Case(Of(b"0", 4, 1), 43),
];

#[test]
fn a_document_says_whose_it_is(rt: HostRuntime) -> Result<(), Fail> {
    compared(first_wrong(rt.alloc(), &OWNERS)?, None)?;
    Ok(())
}

static OWN_KEYS: [Case; 7] = [
    Case(Among(b"0", &[OWN_PAIR]), 0),
    Case(Among(b"0", &[PAIR]), 43),
    Case(Among(b"0", &[OWN_PAIR, PAIR, PAIR, PAIR]), 0),
    Case(Among(b"0", &[PAIR, OWN_PAIR, OWN_PAIR, OWN_PAIR]), 43),
    Case(Among(b"3", &[PAIR, PAIR, PAIR, OWN_PAIR]), 0),
    Case(Among(b"3", &[OWN_PAIR, OWN_PAIR, OWN_PAIR, PAIR]), 43),
    // a client has none
    Case(
        Parts(&[b"me = { client = 0 }\nreplicas = [", PAIR, b"]\n"]),
        0,
    ),
];

#[test]
fn a_replica_has_one_key_with_itself(rt: HostRuntime) -> Result<(), Fail> {
    compared(first_wrong(rt.alloc(), &OWN_KEYS)?, None)?;
    Ok(())
}

const SENDING: &[u8] = b"{ sending = '";

const RECEIVING: &[u8] = b"', receiving = '";

const END: &[u8] = b"' }";

// the digits without the last two, without the last one, and without the first one
const FIRST_62: &[u8] = b"0123456789abcdefABCDEF0123456789abcdef0123456789ABCDEF01234567";

const FIRST_63: &[u8] = b"0123456789abcdefABCDEF0123456789abcdef0123456789ABCDEF012345678";

const LAST_63: &[u8] = b"123456789abcdefABCDEF0123456789abcdef0123456789ABCDEF0123456789";

static DIGITS_OF_KEYS: [Case; 7] = [
    Case(With(&[SENDING, DIGITS, RECEIVING, DIGITS, END]), 0),
    Case(With(&[SENDING, DIGITS, RECEIVING, &[b'g'; 64], END]), 43),
    Case(With(&[SENDING, DIGITS, RECEIVING, FIRST_62, END]), 43),
    Case(With(&[SENDING, DIGITS, RECEIVING, FIRST_63, END]), 43),
    Case(With(&[SENDING, DIGITS, RECEIVING, END]), 43),
    Case(With(&[SENDING, LAST_63, RECEIVING, DIGITS, END]), 43),
    Case(With(&[SENDING, DIGITS, b"00", RECEIVING, DIGITS, END]), 43),
];

#[test]
fn a_key_has_64_digits(rt: HostRuntime) -> Result<(), Fail> {
    compared(first_wrong(rt.alloc(), &DIGITS_OF_KEYS)?, None)?;
    Ok(())
}

static TWO_KEYS: [Case; 7] = [
    Case(With(&[PAIR]), 0),
    Case(With(&[SENDING, DIGITS, END]), 43),
    Case(With(&[b"{ receiving = '", DIGITS, END]), 43),
    Case(With(&[SENDING, DIGITS, b"', receiving = 0 }"]), 43),
    Case(
        With(&[SENDING, DIGITS, b"', f = 1, receiving = '", DIGITS, END]),
        43,
    ),
    Case(With(&[b"'", DIGITS, b"'"]), 43),
    Case(With(&[b"[", PAIR, b"]"]), 43),
];

#[test]
fn a_pair_has_two_keys(rt: HostRuntime) -> Result<(), Fail> {
    compared(first_wrong(rt.alloc(), &TWO_KEYS)?, None)?;
    Ok(())
}

const A_CLIENT: &[u8] = b"me = { client = 0 }\n";

const PAIRS: &[u8] = b"replicas = [";

static FAULTS: [Case; 10] = [
    Case(Parts(&[A_CLIENT, PAIRS, PAIR, b"]\n"]), 0),
    Case(Parts(&[PAIRS, PAIR, b"]\n"]), 43),
    Case(Parts(&[A_CLIENT]), 43),
    Case(Parts(&[]), 43),
    Case(Parts(&[A_CLIENT, b"f = 0\n", PAIRS, PAIR, b"]\n"]), 43),
    Case(Parts(&[A_CLIENT, A_CLIENT, PAIRS, PAIR, b"]\n"]), 43),
    Case(Parts(&[A_CLIENT, PAIRS, PAIR, b"]\nclients = 0\n"]), 43),
    Case(Parts(&[A_CLIENT, b"replicas = ", PAIR]), 43),
    Case(Parts(&[A_CLIENT, PAIRS, PAIR]), 43),
    Case(Parts(&[A_CLIENT, PAIRS, PAIR, b"]\n# \xff\n"]), 43),
];

#[test]
fn other_keys_and_texts_are_faults(rt: HostRuntime) -> Result<(), Fail> {
    compared(first_wrong(rt.alloc(), &FAULTS)?, None)?;
    Ok(())
}
