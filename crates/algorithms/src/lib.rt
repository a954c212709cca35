// The algorithms, each with its mode and its sizes (RFC 7518).
#![tactic(auto)]

ghost use Rattle.std.specs.Prelude.{◌≡◌};
ghost use Rattle.names.specs.Names.{number_in};
ghost use Rattle.algorithms.specs.Algorithms.{mode, key_added, key_iv, key_tag, key_size, iv_size, tag_size, algs, alg_names, encs, enc_names};
ghost use Rattle.algorithms.specs.Algorithms.{nth};

// The values of `alg`, `enc` and the compression parameter as lists of names, contents first, as `names` reads them. Where
// one is used it is proved to be the list of the names that the definition has, by computing.

// The values of `alg`.
pub const ALGS: [u8; 195] = *b"\x11\
    \x06\x08\x0c\
    \x06\x06\x06\x09\x09\x09\x12\x12\x12\
    \x07\
    \x0e\x0e\x0e\
    \x03\
    RSA1_5\
    RSA-OAEP\
    RSA-OAEP-256\
    A128KW\
    A192KW\
    A256KW\
    A128GCMKW\
    A192GCMKW\
    A256GCMKW\
    PBES2-HS256+A128KW\
    PBES2-HS384+A192KW\
    PBES2-HS512+A256KW\
    ECDH-ES\
    ECDH-ES+A128KW\
    ECDH-ES+A192KW\
    ECDH-ES+A256KW\
    dir";

// The values of `enc`.
pub const ENCS: [u8; 67] = *b"\x06\
    \x0d\x0d\x0d\
    \x07\x07\x07\
    A128CBC-HS256\
    A192CBC-HS384\
    A256CBC-HS512\
    A128GCM\
    A192GCM\
    A256GCM";

// The one value of the compression parameter.
pub const ZIPS: [u8; 5] = *b"\x01\
    \x03\
    DEF";

// `alg`: how the content key is managed.
#[derive(Clone, Copy, Debug, PartialEq, Eq)]
pub enum Alg {
    Rsa15,
    RsaOaep,
    RsaOaep256,
    A128Kw,
    A192Kw,
    A256Kw,
    A128GcmKw,
    A192GcmKw,
    A256GcmKw,
    Pbes2A128Kw,
    Pbes2A192Kw,
    Pbes2A256Kw,
    EcdhEs,
    EcdhEsA128Kw,
    EcdhEsA192Kw,
    EcdhEsA256Kw,
    Dir,
}

// `enc`: how the content is encrypted.
#[derive(Clone, Copy, Debug, PartialEq, Eq)]
pub enum Enc {
    A128CbcHs256,
    A192CbcHs384,
    A256CbcHs512,
    A128Gcm,
    A192Gcm,
    A256Gcm,
}

// The encrypted key beside the content key: so many octets longer, of a length that is not judged, or absent.
#[derive(Clone, Copy, Debug, PartialEq, Eq)]
pub enum Added {
    Octets(u32),
    Unjudged,
    NoKey,
}

// The n-th of some, counted from 1.
fn nth<T: Copy>(all: &[T], n: usize) -> Option<T>
    ensures { result ≡ nth all.now n }
{
    all.get(n.checked_sub(1)?).copied()
}

impl Alg {
    // How many there are.
    pub const COUNT: u32 = 17;

    // All of them, in document 01's order.
    const ALL: [Alg; Alg::COUNT as usize] = [
        Alg::Rsa15,
        Alg::RsaOaep,
        Alg::RsaOaep256,
        Alg::A128Kw,
        Alg::A192Kw,
        Alg::A256Kw,
        Alg::A128GcmKw,
        Alg::A192GcmKw,
        Alg::A256GcmKw,
        Alg::Pbes2A128Kw,
        Alg::Pbes2A192Kw,
        Alg::Pbes2A256Kw,
        Alg::EcdhEs,
        Alg::EcdhEsA128Kw,
        Alg::EcdhEsA192Kw,
        Alg::EcdhEsA256Kw,
        Alg::Dir,
    ];

    // The n-th of document 01's table, counted from 1.
    pub fn numbered(n: u32) -> Option<Alg>
        ensures { result ≡ nth algs n }
    {
        nth(&Alg::ALL, n as usize)
    }

    // The one that a spelling names, after undoing escapes.
    pub fn named(spelled: &[u8]) -> Option<Alg>
        ensures { result ≡ nth algs (number_in alg_names spelled.now) }
    {
        Alg::numbered(names::find(&ALGS, spelled))
    }

    // 1 key encryption, 2 key wrapping, 3 direct agreement, 4 agreement with wrapping, 5 direct encryption.
    pub fn mode(self) -> u32
        ensures { result ≡ mode self }
    {
        match self {
            Alg::Rsa15 | Alg::RsaOaep | Alg::RsaOaep256 => 1,
            Alg::A128Kw | Alg::A192Kw | Alg::A256Kw => 2,
            Alg::A128GcmKw | Alg::A192GcmKw | Alg::A256GcmKw => 2,
            Alg::Pbes2A128Kw | Alg::Pbes2A192Kw | Alg::Pbes2A256Kw => 2,
            Alg::EcdhEs => 3,
            Alg::EcdhEsA128Kw | Alg::EcdhEsA192Kw | Alg::EcdhEsA256Kw => 4,
            Alg::Dir => 5,
        }
    }

    // How the encrypted key's length stands to the content key's.
    pub fn key_added(self) -> Added
        ensures { result ≡ key_added self }
    {
        match self {
            Alg::Rsa15 | Alg::RsaOaep | Alg::RsaOaep256 => Added::Unjudged,
            Alg::A128Kw | Alg::A192Kw | Alg::A256Kw => Added::Octets(8),
            Alg::A128GcmKw | Alg::A192GcmKw | Alg::A256GcmKw => Added::Octets(0),
            Alg::Pbes2A128Kw | Alg::Pbes2A192Kw | Alg::Pbes2A256Kw => Added::Octets(8),
            Alg::EcdhEsA128Kw | Alg::EcdhEsA192Kw | Alg::EcdhEsA256Kw => Added::Octets(8),
            Alg::EcdhEs | Alg::Dir => Added::NoKey,
        }
    }

    // Octets of the parameter `iv`, which only wrapping by GCM has; 0 where there is none.
    pub fn key_iv(self) -> u32
        ensures { result ≡ key_iv self }
    {
        match self {
            Alg::A128GcmKw | Alg::A192GcmKw | Alg::A256GcmKw => 12,
            Alg::Rsa15 | Alg::RsaOaep | Alg::RsaOaep256 => 0,
            Alg::A128Kw | Alg::A192Kw | Alg::A256Kw => 0,
            Alg::Pbes2A128Kw | Alg::Pbes2A192Kw | Alg::Pbes2A256Kw => 0,
            Alg::EcdhEsA128Kw | Alg::EcdhEsA192Kw | Alg::EcdhEsA256Kw => 0,
            Alg::EcdhEs | Alg::Dir => 0,
        }
    }

    // Octets of the parameter `tag`, which only wrapping by GCM has; 0 where there is none.
    pub fn key_tag(self) -> u32
        ensures { result ≡ key_tag self }
    {
        match self {
            Alg::A128GcmKw | Alg::A192GcmKw | Alg::A256GcmKw => 16,
            Alg::Rsa15 | Alg::RsaOaep | Alg::RsaOaep256 => 0,
            Alg::A128Kw | Alg::A192Kw | Alg::A256Kw => 0,
            Alg::Pbes2A128Kw | Alg::Pbes2A192Kw | Alg::Pbes2A256Kw => 0,
            Alg::EcdhEsA128Kw | Alg::EcdhEsA192Kw | Alg::EcdhEsA256Kw => 0,
            Alg::EcdhEs | Alg::Dir => 0,
        }
    }
}

impl Enc {
    // How many there are.
    pub const COUNT: u32 = 6;

    // All of them, in document 01's order.
    const ALL: [Enc; Enc::COUNT as usize] = [
        Enc::A128CbcHs256,
        Enc::A192CbcHs384,
        Enc::A256CbcHs512,
        Enc::A128Gcm,
        Enc::A192Gcm,
        Enc::A256Gcm,
    ];

    // The n-th of document 01's list, counted from 1.
    pub fn numbered(n: u32) -> Option<Enc>
        ensures { result ≡ nth encs n }
    {
        nth(&Enc::ALL, n as usize)
    }

    // The one that a spelling names, after undoing escapes.
    pub fn named(spelled: &[u8]) -> Option<Enc>
        ensures { result ≡ nth encs (number_in enc_names spelled.now) }
    {
        Enc::numbered(names::find(&ENCS, spelled))
    }

    // Octets of the content key.
    pub fn key_size(self) -> u32
        ensures { result ≡ key_size self }
    {
        match self {
            Enc::A128CbcHs256 => 32,
            Enc::A192CbcHs384 => 48,
            Enc::A256CbcHs512 => 64,
            Enc::A128Gcm => 16,
            Enc::A192Gcm => 24,
            Enc::A256Gcm => 32,
        }
    }

    // Octets of the initialization vector.
    pub fn iv_size(self) -> u32
        ensures { result ≡ iv_size self }
    {
        match self {
            Enc::A128CbcHs256 => 16,
            Enc::A192CbcHs384 => 16,
            Enc::A256CbcHs512 => 16,
            Enc::A128Gcm => 12,
            Enc::A192Gcm => 12,
            Enc::A256Gcm => 12,
        }
    }

    // Octets of the authentication tag.
    pub fn tag_size(self) -> u32
        ensures { result ≡ tag_size self }
    {
        match self {
            Enc::A128CbcHs256 => 16,
            Enc::A192CbcHs384 => 24,
            Enc::A256CbcHs512 => 32,
            Enc::A128Gcm => 16,
            Enc::A192Gcm => 16,
            Enc::A256Gcm => 16,
        }
    }
}
