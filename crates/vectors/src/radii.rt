ghost use Rattle.gimv_core.specs.Algebras.{FitsWeight};

use gimv_core::{Gimv, One};
use hadi::Hadi;
use peg_text::NoMemory;
use std::alloc::Global;

/// What a node keeps after one step in which another node sends to it: its number, whether it is the same, and its text.
fn one_step<G: Gimv>(
    gimv: &G,
    alloc: Global,
    weight: &G::Weight,
    node: u32,
    sender: u32,
) -> Result<(u64, bool, Vec<u8>), NoMemory>
    requires { FitsWeight (G.algebra gimv.now) weight.now }
{
    let old = gimv.first(alloc, node)?;
    let sent = gimv.first(alloc, sender)?;
    let mut all = gimv.unit();
    gimv.combine(&mut all, &gimv.combine2(weight, &sent));
    let new = gimv.assign(alloc, &old, &all)?;
    let mut text = Vec::new(alloc);
    gimv.write_val(alloc, &mut text, &new)?;
    Ok((gimv.number(&new), gimv.same(&old, &new), text))
}

/// The text of a value after a step in which nothing is sent to its node.
fn undisturbed<G: Gimv>(gimv: &G, alloc: Global, text: &[u8]) -> Result<Option<Vec<u8>>, NoMemory> {
    let Some(val) = gimv.read_val(alloc, text)? else {
        return Ok(None);
    };
    let next = gimv.assign(alloc, &val, &gimv.unit())?;
    let mut out = Vec::new(alloc);
    gimv.write_val(alloc, &mut out, &next)?;
    Ok(Some(out))
}

#[test]
fn nodes_take_over_bits(rt: HostRuntime) -> Result<(), NoMemory> {
    let alloc = rt.alloc();
    let (number, same, text) = one_step(&Hadi::new(42), alloc, &One, 0, 0)?;
    assert_eq!(rt; number, 0);
    assert!(rt; same);
    let front = b"000000010000000100000010000000010000000100000002";
    assert_eq!(rt; text.get(..48), Some(front.as_slice()));
    let (_, moved, other) = one_step(&Hadi::new(42), alloc, &One, 0, 1)?;
    assert!(rt; !moved);
    assert!(rt; other != text);
    Ok(())
}

#[test]
fn no_more_than_257_sums_are_kept(rt: HostRuntime) -> Result<(), NoMemory> {
    let alloc = rt.alloc();
    let hadi = Hadi::new(1);
    let mut text = Vec::new(alloc);
    for _ in 0..256 {
        text.push(b'0')?;
    }
    assert_eq!(rt; undisturbed(&hadi, alloc, &text)?, None);
    for _ in 0..256 {
        text.extend_from_slice(b":3")?;
    }
    let Some(full) = undisturbed(&hadi, alloc, &text)? else {
        assert!(rt; false);
        return Ok(());
    };
    assert_eq!(rt; full.get(..768), Some(text.as_slice()));
    assert_eq!(rt; full.get(768..), Some(b":0".as_slice()));
    assert_eq!(rt; undisturbed(&hadi, alloc, &full)?, Some(full));
    assert_eq!(rt; hadi.read_msg(&[b'0'; 256]), Some([0; 32]));
    assert_eq!(rt; hadi.read_weight(b"1"), Some(One));
    Ok(())
}

/// The next of a series of numbers that look random.
fn next(number: u64) -> u64 {
    number
        .wrapping_mul(6_364_136_223_846_793_005)
        .wrapping_add(1_442_695_040_888_963_407)
}

/// 32 words that look random, from a number on, with many low bits.
fn random_words(from: u64) -> [u32; 32] {
    let mut words = [0; 32];
    let mut number = from;
    for l in 0..32 {
        number = next(number);
        let many = number | next(number) | next(next(number));
        words[l] = u32::try_from(many >> 32).unwrap_or(0);
    }
    words
}

/// The number of the lowest bit of a word that is 0, bit by bit.
fn plain_first_zero(word: u32) -> u32 {
    for place in 0..32u32 {
        if word >> place & 1 == 0 {
            return place;
        }
    }
    32
}

/// The digits of words.
fn digits_of(alloc: Global, words: &[u32; 32]) -> Result<Vec<u8>, NoMemory> {
    let mut digits = Vec::new(alloc);
    for word in words {
        digits.extend_from_slice(format!(in alloc; "{word:08x}")?.as_bytes())?;
    }
    Ok(digits)
}

/// The text of two messages put together.
fn put_together<G: Gimv>(
    gimv: &G,
    alloc: Global,
    one: &[u8],
    other: &[u8],
) -> Result<Option<Vec<u8>>, NoMemory> {
    let (Some(mut all), Some(other)) = (gimv.read_msg(one), gimv.read_msg(other)) else {
        return Ok(None);
    };
    gimv.combine(&mut all, &other);
    let mut out = Vec::new(alloc);
    gimv.write_msg(alloc, &mut out, &all)?;
    Ok(Some(out))
}

#[test]
fn random_words_are_put_together_bit_by_bit(rt: HostRuntime) -> Result<(), NoMemory> {
    let alloc = rt.alloc();
    let hadi = Hadi::new(7);
    for from in 0..50u64 {
        let (ours, theirs) = (random_words(from), random_words(from + 1000));
        let mut all = [0; 32];
        let mut places = 0u32;
        for l in 0..32 {
            all[l] = ours[l] | theirs[l];
            places = places.wrapping_add(plain_first_zero(all[l]));
        }
        let mut text = digits_of(alloc, &all)?;
        let (one, other) = (digits_of(alloc, &ours)?, digits_of(alloc, &theirs)?);
        assert_eq!(rt;
            put_together(&hadi, alloc, &one, &other)?,
            Some(text.clone()?)
        );
        text.extend_from_slice(b":0")?;
        let kept = undisturbed(&hadi, alloc, &text)?;
        text.extend_from_slice(format!(in alloc; ":{places}")?.as_bytes())?;
        assert_eq!(rt; kept, Some(text));
    }
    Ok(())
}
