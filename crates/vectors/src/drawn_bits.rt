use bitstrings::{
    Bits, first_words, or_into, places, radius, read_bits, read_words, write_bits, write_words,
};
use peg_text::NoMemory;
use rand_core::utils::NextWord;
use rand_pcg::Pcg32;

#[test]
fn the_stream_is_the_reference_one(rt: HostRuntime) {
    let mut stream = Pcg32::new(42, 54);
    let words = [
        0xa15c02b7, 0x7b47f409, 0xba1d3330, 0x83d2f293, 0xbfa4784b, 0xcbed606e,
    ];
    for word in words {
        assert_eq!(rt; stream.next_word(), word);
    }
    let first = first_words(42, 0);
    for (l, word) in [1, 1, 0x10, 1, 1, 2].into_iter().enumerate() {
        assert_eq!(rt; first[l], word);
    }
}

#[test]
fn nodes_draw_one_after_another(rt: HostRuntime) {
    let mut stream = Pcg32::new(7, 54);
    for node in 0..3 {
        for word in first_words(7, node) {
            let zeros = stream.next_word().trailing_zeros();
            assert_eq!(rt; word.trailing_zeros(), zeros.min(31));
            assert_eq!(rt; word.count_ones(), 1);
        }
    }
}

#[test]
fn first_zero_places_are_summed(rt: HostRuntime) {
    let mut words = [0; 32];
    assert_eq!(rt; places(&words), 0);
    words[0] = 0b1011;
    words[31] = u32::MAX;
    assert_eq!(rt; places(&words), 34);
    let mut others = [0; 32];
    others[0] = 0b100;
    or_into(&mut others, &words);
    assert_eq!(rt; others[0], 0b1111);
    assert_eq!(rt; places(&others), 36);
}

#[test]
fn the_radius_is_the_first_step_near_the_last(rt: HostRuntime) {
    let rows: [(&[u16], u64); 5] = [
        (&[30], 0),
        (&[10, 20, 30], 2),
        (&[10, 26, 27, 30], 1),
        (&[10, 25, 30], 2),
        (&[30, 30, 30], 0),
    ];
    for (sums, steps) in rows {
        assert!(rt; !sums.is_empty());
        assert_eq!(rt; radius(sums), steps);
    }
}

#[test]
fn texts_are_read_back(rt: HostRuntime) -> Result<(), NoMemory> {
    let alloc = rt.alloc();
    let mut words = [0xffff_ffff; 32];
    words[0] = 0x0000_0010;
    words[1] = 0x89ab_cdef;
    let mut text = Vec::new(alloc);
    write_words(alloc, &mut text, &words)?;
    assert_eq!(rt; text.len(), 256);
    assert_eq!(rt; &text[..24], b"0000001089abcdefffffffff".as_slice());
    assert_eq!(rt; read_words(&text), Some(words));
    assert_eq!(rt; read_words(&text[1..]), None);
    let bits = Bits {
        words,
        sums: vec![in alloc; 0, 1024, 7]?,
    };
    let mut whole = Vec::new(alloc);
    write_bits(alloc, &mut whole, &bits)?;
    assert_eq!(rt; &whole[..256], text.as_slice());
    assert_eq!(rt; &whole[256..], b":0:1024:7".as_slice());
    let Some(found) = read_bits(alloc, &whole)? else {
        assert!(rt; false);
        return Ok(());
    };
    assert_eq!(rt; found.words, words);
    assert_eq!(rt; found.sums.as_slice(), bits.sums.as_slice());
    Ok(())
}

#[test]
fn other_texts_are_refused(rt: HostRuntime) -> Result<(), NoMemory> {
    let alloc = rt.alloc();
    let mut digits = Vec::new(alloc);
    write_words(alloc, &mut digits, &[0xa; 32])?;
    let rows: [(&[u8], bool); 9] = [
        (b":0", true),
        (b":0007:1024", true),
        (b"", false),
        (b":", false),
        (b":1025", false),
        (b":1:", false),
        (b"::1", false),
        (b";1", false),
        (b":x", false),
    ];
    for (end, read) in rows {
        let mut text = digits.clone()?;
        text.extend_from_slice(end)?;
        assert_eq!(rt; read_bits(alloc, &text)?.is_some(), read);
    }
    digits[7] = b'A';
    assert_eq!(rt; read_words(&digits), None);
    digits[7] = b'g';
    assert_eq!(rt; read_words(&digits), None);
    Ok(())
}
