// The operators that make a text.
ghost use Rattle.std.specs.Prelude.{◌≡◌, ◌-◌, ◌++◌, bit_and, bit_or, bit_xor, map, zip, IfOk};
ghost use Rattle.php_value.specs.Operator.{common_bytes, joined, or_bytes};
ghost use Rattle.php_value.specs.Stopped.{IsUnlessNoMemory};

use crate::fault::{Fault, Stopped};
use crate::scalar::Scalar;
use crate::text::Text;
use php_base::NoMemory;
use std::alloc::{AllocError, Global};

// The greatest number of bytes in a text.
const TEXT_LIMIT: usize = 16_777_216;

// `s` and then `t`, if that is no longer than a text may be.
pub fn joined(alloc: Global, s: &[u8], t: &[u8]) -> Result<Scalar, Stopped>
    ensures { IsUnlessNoMemory result (joined (s.now ++ t.now)) }
{
    if s.len() + t.len() > TEXT_LIMIT {
        return Err(Stopped::Fault(Fault::StringLimit));
    }
    Ok(Scalar::Str(joined_bytes(alloc, s, t)?))
}

fn joined_bytes(alloc: Global, s: &[u8], t: &[u8]) -> Result<Text, NoMemory>
    ensures { IfOk result (λ bytes. bytes ≡ s.now ++ t.now) }
{
    let mut bytes = Vec::with_capacity(alloc, s.len() + t.len())?;
    bytes.extend_from_slice(s)?;
    bytes.extend_from_slice(t)?;
    Text::from_vec(alloc, bytes)
}

pub fn and_bytes(alloc: Global, s: &[u8], t: &[u8]) -> Result<Text, NoMemory>
    ensures { IfOk result (λ bytes. bytes ≡ common_bytes bit_and s.now t.now) }
{
    Text::from_vec(alloc, common_and(alloc, s, t)?)
}

fn common_and(alloc: Global, s: &[u8], t: &[u8]) -> Result<Vec<u8>, AllocError>
    ensures { IfOk result (λ bytes. bytes.items ≡ map (λ p. bit_and p.0 p.1) (zip s.now t.now)) }
{
    s.iter().zip(t).map(|(x, y)| *x & *y).collect(alloc)
}

pub fn xor_bytes(alloc: Global, s: &[u8], t: &[u8]) -> Result<Text, NoMemory>
    ensures { IfOk result (λ bytes. bytes ≡ common_bytes bit_xor s.now t.now) }
{
    Text::from_vec(alloc, common_xor(alloc, s, t)?)
}

fn common_xor(alloc: Global, s: &[u8], t: &[u8]) -> Result<Vec<u8>, AllocError>
    ensures { IfOk result (λ bytes. bytes.items ≡ map (λ p. bit_xor p.0 p.1) (zip s.now t.now)) }
{
    s.iter().zip(t).map(|(x, y)| *x ^ *y).collect(alloc)
}

pub fn or_bytes(alloc: Global, s: &[u8], t: &[u8]) -> Result<Text, NoMemory>
    ensures { IfOk result (λ bytes. bytes ≡ or_bytes s.now t.now) }
{
    let mut bytes = common_or(alloc, s, t)?;
    if s.len() < t.len() {
        bytes.extend_from_slice(&t[s.len()..])?;
    } else {
        bytes.extend_from_slice(&s[t.len()..])?;
    }
    Text::from_vec(alloc, bytes)
}

fn common_or(alloc: Global, s: &[u8], t: &[u8]) -> Result<Vec<u8>, AllocError>
    ensures { IfOk result (λ bytes. bytes.items ≡ map (λ p. bit_or p.0 p.1) (zip s.now t.now)) }
{
    s.iter().zip(t).map(|(x, y)| *x | *y).collect(alloc)
}

pub fn complement_bytes(alloc: Global, s: &[u8]) -> Result<Text, NoMemory>
    ensures { IfOk result (λ bytes. bytes ≡ map (λ x. 255 - x) s.now) }
{
    let bytes = s.iter().map(|x| !*x).collect(alloc)?;
    Text::from_vec(alloc, bytes)
}
