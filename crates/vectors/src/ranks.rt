ghost use Rattle.std.specs.Prelude.{◌≤◌};

use gimv_core::Gimv;
use pagerank::PageRank;
use peg_text::NoMemory;

#[test]
fn ranks_of_two_nodes(rt: HostRuntime) -> Result<(), NoMemory> {
    let alloc = rt.alloc();
    let ranks = PageRank::new(2);
    let first = ranks.first(alloc, 1)?;
    assert_eq!(rt; first, 2_147_483_648);
    assert_eq!(rt; ranks.assign(alloc, &first, &0)?, 322_122_547);
    assert_eq!(rt; ranks.combine2(&2, &first), 912_680_550);
    let mut all = ranks.unit();
    ranks.combine(&mut all, &912_680_550);
    ranks.combine(&mut all, &912_680_550);
    assert_eq!(rt; ranks.assign(alloc, &first, &all)?, 2_147_483_647);
    assert!(rt; ranks.same(&all, &1_825_361_100));
    assert!(rt; !ranks.same(&all, &first));
    assert_eq!(rt; ranks.number(&all), 1_825_361_100);
    Ok(())
}

#[test]
fn large_ranks_are_shared_and_summed_without_wrapping(rt: HostRuntime) -> Result<(), NoMemory> {
    let ranks = PageRank::new(1);
    let rows: [(u64, u64, u64); 4] = [
        (1, 4_294_967_296, 3_650_722_201),
        (1, u64::MAX, 15_679_732_462_653_118_872),
        (u64::MAX, u64::MAX, 0),
        (17, u64::MAX, 922_337_203_685_477_580),
    ];
    for (degree, rank, share) in rows {
        assert!(rt; degree >= 1);
        assert_eq!(rt; ranks.combine2(&degree, &rank), share);
    }
    let mut all = u64::MAX - 1;
    ranks.combine(&mut all, &2);
    assert_eq!(rt; all, u64::MAX);
    assert_eq!(rt; ranks.assign(rt.alloc(), &0, &all)?, u64::MAX);
    Ok(())
}

#[test]
fn texts_are_decimals_and_degrees_at_least_one(rt: HostRuntime) -> Result<(), NoMemory> {
    let alloc = rt.alloc();
    let ranks = PageRank::new(3);
    let rows: [(&[u8], Option<u64>, Option<u64>); 5] = [
        (b"7", Some(7), Some(7)),
        (b"0", Some(0), None),
        (b"18446744073709551615", Some(u64::MAX), Some(u64::MAX)),
        (b"18446744073709551616", None, None),
        (b"7x", None, None),
    ];
    for (text, rank, degree) in rows {
        assert_eq!(rt; ranks.read_val(alloc, text)?, rank);
        assert_eq!(rt; ranks.read_msg(text), rank);
        assert_eq!(rt; ranks.read_weight(text), degree);
    }
    let mut out = Vec::new(alloc);
    ranks.write_val(alloc, &mut out, &4_294_967_295)?;
    ranks.write_msg(alloc, &mut out, &0)?;
    assert_eq!(rt; out.as_slice(), b"42949672950".as_slice());
    Ok(())
}

/// The next of a series of numbers that look random.
fn next(number: u64) -> u64 {
    number
        .wrapping_mul(6_364_136_223_846_793_005)
        .wrapping_add(1_442_695_040_888_963_407)
}

/// What a node of this rank passes along each of its edges, by whole numbers of 128 bits.
fn plain_share(rank: u64, degree: u64) -> u64
    requires { 1 ≤ degree }
{
    u64::try_from(17 * u128::from(rank) / (20 * u128::from(degree))).unwrap_or(u64::MAX)
}

#[test]
fn random_ranks_are_shared_and_summed(rt: HostRuntime) -> Result<(), NoMemory> {
    let alloc = rt.alloc();
    let mut number = 1;
    for _ in 0..1000u32 {
        let nodes = 1 + (number >> 40) as u32;
        let one = next(number) >> 31;
        let two = next(one) >> 31;
        let degree = 1 + (next(two) >> 54);
        number = next(degree);
        let ranks = PageRank::new(nodes);
        let mut all = ranks.unit();
        ranks.combine(&mut all, &ranks.combine2(&degree, &one));
        ranks.combine(&mut all, &ranks.combine2(&1, &two));
        let sum = plain_share(one, degree).saturating_add(plain_share(two, 1));
        let base = 12_884_901_888 / (20 * u64::from(nodes));
        let rank = ranks.assign(alloc, &one, &all)?;
        assert_eq!(rt; rank, base.saturating_add(sum));
        let mut text = Vec::new(alloc);
        ranks.write_msg(alloc, &mut text, &rank)?;
        assert_eq!(rt; ranks.read_msg(&text), Some(rank));
        assert_eq!(rt; text, format!(in alloc; "{rank}")?.into_bytes());
    }
    Ok(())
}
