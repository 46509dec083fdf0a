use conf::*;
use std::alloc::Global;
use std::process::Abort;
use std::test::Fail;

/// The words between single blanks; two blanks have an empty word between them.
fn words_of(alloc: Global, line: &str) -> Result<Vec<String>, Fail> {
    let mut words = Vec::new(alloc);
    for word in line.split(' ') {
        words.push(String::from_str(alloc, word)?)?;
    }
    Ok(words)
}

/// The number of the word that is refused, and `None` where all are accepted.
fn refused(alloc: Global, line: &str) -> Result<Option<u32>, Fail> {
    let words = words_of(alloc, line)?;
    Ok(read_words(&words).err().map(|usage| usage.word))
}

fn conf_of(alloc: Global, line: &str) -> Result<Conf, Fail> {
    let words = words_of(alloc, line)?;
    match read_words(&words) {
        Ok(conf) => Ok(conf),
        Err(_) => Err("a word is refused")?,
    }
}

/// What `w e hcc nodes=6` says.
const SMALL: Conf = Conf {
    command: Command::Hcc,
    nodes: 6,
    reducers: 1,
    split: 67_108_864,
    slots: 4,
    spill: 16_777_216,
    backup: false,
    form: Form::Base,
    block: 16,
    iters: 10,
    hops: 64,
    seed: 1,
    sym: false,
    generated: None,
};

#[test]
fn least_refused_word_is_named(rt: HostRuntime) -> Result<(), Fail> {
    assert_eq!(rt; read_words(&[]), Err(Usage { word: 0 }));
    for (line, word) in [
        ("", Some(0)),
        (" e hcc nodes=6", Some(0)),
        ("w", Some(1)),
        ("w  hcc nodes=6", Some(1)),
        ("w e", Some(2)),
        ("w e hcc", Some(3)),
        ("w e hcc nodes=0", Some(3)),
        ("w e hcc nodes=6 nodes=6", Some(4)),
        ("w e hcc nodes=6 slots=0 slots=2", Some(4)),
        ("w e hcc slots=2 reducers=1", Some(5)),
        ("w e HCC nodes=6", Some(2)),
        ("w e hcc nodes=6 nodes", Some(4)),
        ("w e hcc nodes=6 split=+1 slots=0", Some(4)),
        ("w e hcc nodes=6 iters=3", Some(4)),
        ("w e pagerank nodes=2 hops=3", Some(4)),
        ("w e pagerank nodes=2 form=diagonal", Some(4)),
        ("w e hadi nodes=2 sym=maybe", Some(4)),
        ("w e hcc nodes=2 backup=maybe", Some(4)),
        ("w e plain nodes=2 backup=yes", Some(4)),
        ("w e plain nodes=2 slots=2", Some(4)),
        ("w e plain nodes=2 form=base", Some(4)),
    ] {
        assert_eq!(rt; refused(rt.alloc(), line)?, word, "{line}");
    }
    Ok(())
}

#[test]
fn words_that_do_not_go_together_are_refused(rt: HostRuntime) -> Result<(), Fail> {
    for (line, word) in [
        ("w - hcc nodes=2", Some(1)),
        ("w - plain nodes=2", Some(1)),
        ("w - plain nodes=2 gen=x", Some(4)),
        ("w - plain gen=x nodes=0", Some(3)),
        ("w - other gen=1:1", Some(1)),
        ("w e plain nodes=2 gen=1:1", Some(4)),
        ("w e plain nodes=134217728", None),
        ("w e plain nodes=134217729", Some(3)),
        ("w e hcc nodes=134217729 form=block", None),
        ("w e hcc nodes=134217729 form=clustered", Some(3)),
        ("w e hcc form=clustered nodes=134217729", Some(4)),
        ("w e hcc nodes=134217729 form=other", Some(4)),
        ("w e hcc nodes=134217729 form=base form=clustered", Some(5)),
        ("w e hcc nodes=6 block=4", Some(4)),
        ("w e hcc nodes=6 block=4 form=base", Some(4)),
        ("w e hcc nodes=6 form=base block=4", Some(5)),
        ("w e hcc nodes=6 block=4 form=other", Some(5)),
        ("w e hcc nodes=6 block=4 form=block", None),
        ("w e hcc nodes=6 block=4 block=4 form=base", Some(4)),
        ("w e plain nodes=6 block=4", Some(4)),
    ] {
        assert_eq!(rt; refused(rt.alloc(), line)?, word, "{line}");
    }
    Ok(())
}

/// The greatest and least values are accepted after this front, and one beyond is refused.
fn assert_ends(
    rt: &impl Abort,
    alloc: Global,
    front: &str,
    ends: [&str; 2],
    beyond: [&str; 2],
) -> Result<(), Fail> {
    for value in ends {
        let line = format!(in alloc; "{front}{value}")?;
        assert_eq!(rt; refused(alloc, &line)?, None, "{line}");
    }
    for value in beyond {
        let line = format!(in alloc; "{front}{value}")?;
        assert!(rt; refused(alloc, &line)?.is_some(), "{line}");
    }
    Ok(())
}

#[test]
fn values_are_accepted_up_to_their_limits(rt: HostRuntime) -> Result<(), Fail> {
    for (front, ends, beyond) in [
        ("w e hcc nodes=", ["1", "1073741824"], ["0", "1073741825"]),
        ("w e hcc nodes=6 reducers=", ["1", "64"], ["0", "65"]),
        (
            "w e hcc nodes=6 split=",
            ["1", "1099511627776"],
            ["0", "1099511627777"],
        ),
        ("w e hcc nodes=6 slots=", ["1", "16"], ["0", "17"]),
        (
            "w e hcc nodes=6 spill=",
            ["1024", "1073741824"],
            ["1023", "1073741825"],
        ),
        (
            "w e hcc nodes=6 form=block block=",
            ["1", "256"],
            ["0", "257"],
        ),
        ("w e pagerank nodes=6 iters=", ["1", "9999"], ["0", "10000"]),
        ("w e hadi nodes=6 hops=", ["1", "256"], ["0", "257"]),
        (
            "w e hadi nodes=6 seed=",
            ["0", "18446744073709551615"],
            ["", "18446744073709551616"],
        ),
        ("w e hadi nodes=6 sym=", ["yes", "no"], ["", "y"]),
        ("w e hcc nodes=6 backup=", ["yes", "no"], ["", "y"]),
        (
            "w - hcc nodes=6 gen=",
            ["0:0", "100000000:18446744073709551615"],
            ["100000001:0", "0:18446744073709551616"],
        ),
        ("w - hcc nodes=6 gen=", ["007:1", "1:007"], ["1", "1:2:3"]),
    ] {
        assert_ends(&rt, rt.alloc(), front, ends, beyond)?;
    }
    Ok(())
}

#[test]
fn what_no_word_says_is_the_default(rt: HostRuntime) -> Result<(), Fail> {
    let alloc = rt.alloc();
    assert_eq!(rt; conf_of(alloc, "w e hcc nodes=6")?, SMALL);
    let hadi = Conf {
        command: Command::Hadi,
        form: Form::Clustered,
        block: 2,
        hops: 7,
        seed: 0,
        sym: true,
        ..SMALL
    };
    assert_eq!(rt;
        conf_of(
            alloc,
            "w e hadi hops=7 sym=yes block=2 nodes=6 seed=0 form=clustered"
        )?,
        hadi
    );
    let ranks = Conf {
        command: Command::PageRank,
        reducers: 3,
        split: 5,
        slots: 1,
        spill: 2048,
        backup: true,
        iters: 2,
        ..SMALL
    };
    assert_eq!(rt;
        conf_of(
            alloc,
            "w e pagerank nodes=06 reducers=3 split=5 slots=1 spill=2048 backup=yes iters=2"
        )?,
        ranks
    );
    Ok(())
}

/// All orders of four options.
const ORDERS: [&str; 24] = [
    "nodes=6 gen=3:42 slots=2 form=diagonal",
    "nodes=6 gen=3:42 form=diagonal slots=2",
    "nodes=6 slots=2 gen=3:42 form=diagonal",
    "nodes=6 slots=2 form=diagonal gen=3:42",
    "nodes=6 form=diagonal gen=3:42 slots=2",
    "nodes=6 form=diagonal slots=2 gen=3:42",
    "gen=3:42 nodes=6 slots=2 form=diagonal",
    "gen=3:42 nodes=6 form=diagonal slots=2",
    "gen=3:42 slots=2 nodes=6 form=diagonal",
    "gen=3:42 slots=2 form=diagonal nodes=6",
    "gen=3:42 form=diagonal nodes=6 slots=2",
    "gen=3:42 form=diagonal slots=2 nodes=6",
    "slots=2 nodes=6 gen=3:42 form=diagonal",
    "slots=2 nodes=6 form=diagonal gen=3:42",
    "slots=2 gen=3:42 nodes=6 form=diagonal",
    "slots=2 gen=3:42 form=diagonal nodes=6",
    "slots=2 form=diagonal nodes=6 gen=3:42",
    "slots=2 form=diagonal gen=3:42 nodes=6",
    "form=diagonal nodes=6 gen=3:42 slots=2",
    "form=diagonal nodes=6 slots=2 gen=3:42",
    "form=diagonal gen=3:42 nodes=6 slots=2",
    "form=diagonal gen=3:42 slots=2 nodes=6",
    "form=diagonal slots=2 nodes=6 gen=3:42",
    "form=diagonal slots=2 gen=3:42 nodes=6",
];

#[test]
fn options_come_in_any_order(rt: HostRuntime) -> Result<(), Fail> {
    let conf = Conf {
        generated: Some((3, 42)),
        slots: 2,
        form: Form::Diagonal,
        ..SMALL
    };
    for order in ORDERS {
        let line = format!(in rt.alloc(); "w - hcc {order}")?;
        assert_eq!(rt; conf_of(rt.alloc(), &line)?, conf, "{line}");
    }
    Ok(())
}

#[test]
fn text_shows_what_committed_bytes_depend_on(rt: HostRuntime) -> Result<(), Fail> {
    let alloc = rt.alloc();
    let small = "pegmine 1\ncommand hcc\nnodes 6\nreducers 1\nsplit 67108864\nform base\n";
    assert_eq!(rt; conf_text(alloc, &SMALL)?.as_slice(), small.as_bytes());
    let hadi = Conf {
        command: Command::Hadi,
        form: Form::Block,
        ..SMALL
    };
    let text =
        "pegmine 1\ncommand hadi\nnodes 6\nreducers 1\nsplit 67108864\nform block\nblock 16\nhops 64\nseed 1\nsym no\n";
    assert_eq!(rt; conf_text(alloc, &hadi)?.as_slice(), text.as_bytes());
    let ranks = Conf {
        command: Command::PageRank,
        ..SMALL
    };
    let text =
        "pegmine 1\ncommand pagerank\nnodes 6\nreducers 1\nsplit 67108864\nform base\niters 10\n";
    assert_eq!(rt; conf_text(alloc, &ranks)?.as_slice(), text.as_bytes());
    Ok(())
}
