// The head of an image.
ghost use Rattle.std.specs.Prelude.{◌≡◌, ◌≤◌, ◌<◌, ◌+◌, ◌^◌, ◌++◌, ◌∷◌, [], IfOk, OnOk, length, option_map, replicate};
ghost use Rattle.std.specs.Int.{to_be_bytes, w32};
ghost use Rattle.device_config.specs.Image.{IsHead, head_bytes};
ghost use Rattle.device_config.specs.Answers.{Finds};
ghost use Rattle.device_config.specs.Zeros.{all_zeros};

use crate::config::CONFIG_LIMIT;
use base_types::{OrMemory, u32_from_be_bytes};
use std::alloc::Global;

/// How many bytes the head of an image has.
pub const HEAD_SIZE: usize = 65_536;

/// How the image behind the head is laid out: components lie in the journal.
pub const LAYOUT: u32 = 1;

// What an image begins with.
const MARK: &[u8; 8] = b"TEEPIMG1";

// Whether all bytes are zero.
fn are_zeros(bytes: &[u8]) -> bool
    ensures { result ≡ all_zeros bytes.now }
{
    for byte in bytes {
        if *byte != 0 {
            return false;
        }
    }
    true
}

// What stands behind a front of the bytes. None where they begin otherwise.
#[tactic(auto, using(crate::proofs::Heads::stripped, crate::proofs::Heads::not_stripped))]
fn behind<'a>(front: &[u8], bytes: &'a [u8]) -> Option<&'a [u8]>
    ensures { Finds (λ rest. bytes.now ≡ front.now ++ rest) (option_map (λ x. x.now) result) }
{
    bytes.strip_prefix(front)
}

// The number of 32 bits in front, the highest byte first, and what stands behind it.
fn number_in(bytes: &[u8]) -> (u32, &[u8])
    requires { 4 ≤ length bytes.now }
    ensures { bytes.now ≡ to_be_bytes w32 result.0 ++ result.1.now }
{
    let (number, rest) = bytes.split_at(4);
    (
        u32_from_be_bytes(number[0], number[1], number[2], number[3]),
        rest,
    )
}

/// The configuration in the head of an image: a part of the head's bytes. None where they are no head.
pub fn config_in(head: &[u8]) -> Option<&[u8]>
    requires { length head.now ≡ HEAD_SIZE }
    ensures { Finds (λ config. IsHead config head.now) (option_map (λ x. x.now) result) }
{
    let rest = behind(MARK, head)?;
    let rest = behind(&LAYOUT.to_be_bytes(), rest)?;
    let (size, rest) = number_in(rest);
    let size = size as usize;
    if size > CONFIG_LIMIT {
        return None;
    }
    let (config, rest) = rest.split_at(size);
    if are_zeros(rest) { Some(config) } else { None }
}

/// Puts so many zeros behind the bytes. Refused for want of memory alone.
pub fn push_zeros(bytes: &mut Vec<u8>, count: usize) -> OrMemory<()>
    requires { length bytes.old.items + count < 2 ^ 64 }
    ensures { OnOk result (bytes.new.items ≡ bytes.old.items ++ replicate count 0) }
{
    let size = bytes.len() + count;
    bytes.resize(size, 0)?;
    Ok(())
}

/// The head of a configuration. Refused for want of memory alone.
pub fn head_of(alloc: Global, config: &[u8]) -> OrMemory<Vec<u8>>
    requires { length config.now ≤ CONFIG_LIMIT }
    ensures { IfOk result (λ head. head.items ≡ head_bytes config.now) }
{
    let mut head = Vec::new(alloc);
    head.extend_from_slice(MARK)?;
    head.extend_from_slice(&LAYOUT.to_be_bytes())?;
    head.extend_from_slice(&(config.len() as u32).to_be_bytes())?;
    head.extend_from_slice(config)?;
    push_zeros(&mut head, CONFIG_LIMIT - config.len())?;
    Ok(head)
}
