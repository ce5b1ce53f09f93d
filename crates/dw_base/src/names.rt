//! Names, which are slices of a file.
ghost use Rattle.std.specs.Prelude.{◌≡◌, ◌==◌, ℕ, List};
ghost use Rattle.std.proofs.Common.{rules, ap};
ghost use Rattle.std.specs.Cmp.Lexicographic.{pointwise, bytes_decides};
ghost use Rattle.std.specs.Cmp.Rules.{comparing};
ghost use Rattle.dw_base.specs.Names.{hash_name, digest_before, IsDigested};
ghost use Rattle.dw_base.specs.Texts.{text_of};

use memchr::memchr;
use std::hash::{Hash, Hasher};
use std::marker::Model;

/// Names of more bytes than these are long: they are hashed by their lengths and digests.
pub(crate) const SHORT: usize = 4096;

/// What a digest is multiplied by for each byte (the prime of FNV-1a, 64 bits).
const PRIME: u64 = 1_099_511_628_211;

/// A name in a file: a slice of the section that holds it, without its closing NUL. Nothing is
/// copied. Contracts see it as its list of bytes. Hashing it reads at most 4,096 bytes.
#[derive(Debug, Drop)]
pub struct Name<'a> {
    bytes: &'a [u8],
    digest: u64,
}

impl<'a> Model for Name<'a> {
    ghost use Rattle.std.specs.Prelude.{List, ℕ};
    ghost use Rattle.dw_base.specs.Names.{IsDigested};

    ghost Value = { List ℕ };

    ghost view = { λ n. n.bytes.now };

    ghost invariant = { λ n. IsDigested n.bytes.now n.digest };
}

impl<'a> Name<'a> {
    /// The name of these bytes. Of a long name all of them are read.
    #[inline]
    pub fn new(bytes: &'a [u8]) -> Name<'a>
        ensures { result ≡ bytes.now }
    {
        let digest = if bytes.len() > SHORT {
            digest_before(0, bytes)
        } else {
            0
        };
        Name { bytes, digest }
    }

    /// The name of these bytes, of which the digest is known.
    #[inline]
    pub(crate) fn with_digest(bytes: &'a [u8], digest: u64) -> Name<'a>
        requires { IsDigested bytes.now digest }
        ensures { result ≡ bytes.now }
    {
        Name { bytes, digest }
    }

    /// The bytes of the name.
    #[inline(always)]
    pub fn bytes(&self) -> &'a [u8]
        ensures { result.now ≡ self.now }
    {
        self.bytes
    }

    /// A second name of the same slice.
    #[inline(always)]
    pub fn again(&self) -> Name<'a>
        ensures { result ≡ self.now }
    {
        Name {
            bytes: self.bytes,
            digest: self.digest,
        }
    }
}

/// The digest of bytes before others, by the digest of these.
pub(crate) fn digest_before(rest: u64, bytes: &[u8]) -> u64
    ensures { result ≡ digest_before rest bytes.now }
{
    let mut digest = rest;
    let mut at = bytes.len();
    while at > 0 {
        at -= 1;
        digest = digest
            .wrapping_mul(PRIME)
            .wrapping_add(u64::from(bytes[at]));
    }
    digest
}

impl<'a> PartialEq for Name<'a> {
    ghost eq = { pointwise ◌==◌ };

    ghost laws = { Prim.search (comparing, rules) };

    #[inline]
    fn eq(&self, other: &Name<'a>) -> bool {
        self.bytes == other.bytes
    }
}

impl<'a> Eq for Name<'a> {
    ghost laws = { Prim.search (comparing, rules) };
}

impl<'a> Hash for Name<'a> {
    ghost hash_input = { hash_name };

    ghost respects_eq = { λ x y h. ap hash_name ((bytes_decides x y).0 h) };

    #[inline]
    fn hash<H: Hasher>(&self, state: &mut H) {
        if self.bytes.len() > SHORT {
            state.write_u64(self.digest);
            state.write_usize(self.bytes.len());
        } else {
            state.write(self.bytes);
        }
    }
}

/// The text at a place: the bytes from offset `at` to before the next NUL (DWARF 5, section 7.5.5,
/// the form string). `None` where no NUL stands at or after `at`, so too where `at` is past the
/// end. The work is that of the text's bytes.
pub fn text_at<'a>(bytes: &'a [u8], at: u64) -> Option<Name<'a>>
    ensures { result ≡ text_of bytes.now at }
{
    if at > bytes.len() as u64 {
        return None;
    }
    let rest = &bytes[at as usize..];
    match memchr(0, rest) {
        None => None,
        Some(end) => Some(Name::new(&rest[..end])),
    }
}
