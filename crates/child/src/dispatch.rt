ghost use Rattle.std.specs.Prelude.{◌≡◌, ◌≢◌, ◌↔◌, ◌≤◌, ◌⊎◌, ℕ, None, IfSome, map};
ghost use Rattle.std.specs.String.{string_bytes};
ghost use Rattle.dir_disk.specs.Causes.{Rose};
ghost use Rattle.child.specs.Child.{IsDone, IsFirstBad, IsStreamed, Runs, WritesPart, streams};
ghost use Rattle.child.specs.Judging.{AreTooMany};
ghost use Rattle.child.specs.Shown.{ShowsBad};
ghost use Rattle.child.specs.Words.{HasNodes, rule_of, rule_of_kind, rule_of_block_role, rule_of_node_role, rule_over_blocks, rule_over_nodes};

use crate::edges::EdgesRole;
use crate::front::Front;
use crate::kinds::{Algorithm, BlockRole, Kind, NodeRole, read_kind};
use crate::run::run_role;
use crate::status::ChildStatus;
use dir_disk::{Sink, Source};
use gimv_base::{
    DegreesRole, EntriesRole, FirstRole, IdRole, NumberRole, PlaceRole, Stage1, Stage2,
};
use gimv_block::{Block1, Block2, BlocksRole, CutRole, FirstBlock, GroupRole, Unblock, Unplace};
use gimv_core::Gimv;
use gimv_diag::Diag1;
use hadi::Hadi;
use hcc::Hcc;
use pagerank::PageRank;
use std::alloc::Global;

/// Runs the role that the words name over all that the source has left.
///
/// It reads pieces of at most 65,536 bytes, and writes what the complete groups of one piece give before it reads the
/// next. A group is a longest run of records with the same key. A record that is bad, or a byte beyond 2^50, ends it; what
/// was written then is a front of what the role gives.
pub fn run_child<I: Source, O: Sink>(
    alloc: Global,
    words: &[String],
    source: &mut I,
    sink: &mut O,
) -> ChildStatus
    // All is read and written, unless the words, the records, the bytes, a stream or the memory are at fault.
    ensures done { result ≡ ChildStatus.Ok → IfSome (rule_of (map string_bytes words.now)) (λ rule.
        IsDone rule (I.left source.old) (I.left source.new) (O.written sink.old) (O.written sink.new)) }
    ensures usage { (result ≡ ChildStatus.Usage) ↔ (rule_of (map string_bytes words.now) ≡ None) }
    ensures bad { (line : ℕ) → result ≡ ChildStatus.BadLine line → IfSome (rule_of (map string_bytes words.now)) (λ rule.
        IfSome (I.left source.old) (λ bytes. IsFirstBad rule bytes line)) }
    ensures too_large { result ≡ ChildStatus.TooLarge → IfSome (rule_of (map string_bytes words.now)) (λ rule.
        IfSome (I.left source.old) (AreTooMany rule)) }
    ensures fault { result ≡ ChildStatus.Fault
        → Rose (I.faults source.old) (I.faults source.new) ⊎ Rose (O.faults sink.old) (O.faults sink.new) }

    // What is written at any answer, and what is read ahead of it.
    ensures part { IfSome (rule_of (map string_bytes words.now)) (λ rule.
        WritesPart rule (I.left source.old) (O.written sink.old) (O.written sink.new)) }
    ensures stream { IfSome (rule_of (map string_bytes words.now)) (λ rule.
        IsStreamed rule (I.left source.old) (I.left source.new) (O.written sink.old) (O.written sink.new)) }
    ensures untouched { result ≡ ChildStatus.Usage → (source.new ≡ source.old) × (sink.new ≡ sink.old) }

    // A count never falls, and it changes only where a fault is answered: want of memory covers none.
    ensures later { (I.faults source.old ≤ I.faults source.new) × (O.faults sink.old ≤ O.faults sink.new) }
    ensures steady_source { result ≢ ChildStatus.Fault → I.faults source.new ≡ I.faults source.old }
    ensures steady_sink { result ≢ ChildStatus.Fault → O.faults sink.new ≡ O.faults sink.old }
{
    match read_kind(words) {
        Some(kind) => run_kind(alloc, kind, source, sink, &mut Front::new(alloc)),
        None => ChildStatus::Usage,
    }
}

/// Runs a role.
pub fn run_kind<I: Source, O: Sink>(
    alloc: Global,
    kind: Kind,
    source: &mut I,
    sink: &mut O,
    shown: &mut Front,
) -> ChildStatus
    requires { HasNodes kind }
    ensures runs { Runs (rule_of_kind kind) result (streams (I.left source.old) (O.written sink.old) (I.faults source.old) (O.faults sink.old)) (streams (I.left source.new) (O.written sink.new) (I.faults source.new) (O.faults sink.new)) }
    ensures shown { ShowsBad result (I.left source.old) shown.new }
{
    match kind {
        Kind::Id => run_role(alloc, IdRole::new(), source, sink, shown),
        Kind::Entries { both } => run_role(alloc, EntriesRole::new(both), source, sink, shown),
        Kind::Edges { nodes } => run_role(alloc, EdgesRole::new(alloc, nodes), source, sink, shown),
        Kind::Degrees => run_role(alloc, DegreesRole::new(alloc), source, sink, shown),
        Kind::Place => run_role(alloc, PlaceRole::new(alloc), source, sink, shown),
        Kind::Nodes {
            role,
            algorithm,
            nodes,
        } => run_over_nodes(alloc, role, algorithm, nodes, source, sink, shown),
        Kind::Group { block } => run_role(alloc, GroupRole::new(block), source, sink, shown),
        Kind::Cut { block } => run_role(alloc, CutRole::new(block), source, sink, shown),
        Kind::Blocks => run_role(alloc, BlocksRole::new(alloc), source, sink, shown),
        Kind::InBlocks {
            role,
            algorithm,
            nodes,
            block,
        } => run_over_blocks(alloc, role, algorithm, nodes, block, source, sink, shown),
        Kind::Diagonal { nodes, block } => {
            run_role(
                alloc,
                Diag1::new(alloc, Hcc::new(), nodes, block),
                source,
                sink,
                shown,
            )
        }
    }
}

/// Runs a role over the nodes of an algorithm.
fn run_over_nodes<I: Source, O: Sink>(
    alloc: Global,
    role: NodeRole,
    algorithm: Algorithm,
    nodes: u32,
    source: &mut I,
    sink: &mut O,
    shown: &mut Front,
) -> ChildStatus
    requires { 1 ≤ nodes }
    ensures runs { Runs (rule_over_nodes role algorithm nodes) result (streams (I.left source.old) (O.written sink.old) (I.faults source.old) (O.faults sink.old)) (streams (I.left source.new) (O.written sink.new) (I.faults source.new) (O.faults sink.new)) }
    ensures shown { ShowsBad result (I.left source.old) shown.new }
{
    match algorithm {
        Algorithm::Hcc => run_node_role(alloc, role, Hcc::new(), nodes, source, sink, shown),
        Algorithm::PageRank => {
            run_node_role(
                alloc,
                role,
                PageRank::new(nodes),
                nodes,
                source,
                sink,
                shown,
            )
        }
        Algorithm::Hadi { seed } => {
            run_node_role(alloc, role, Hadi::new(seed), nodes, source, sink, shown)
        }
    }
}

/// Runs a role over the nodes of this algorithm.
fn run_node_role<G: Gimv + Drop, I: Source, O: Sink>(
    alloc: Global,
    role: NodeRole,
    algorithm: G,
    nodes: u32,
    source: &mut I,
    sink: &mut O,
    shown: &mut Front,
) -> ChildStatus
    ensures runs { Runs (rule_of_node_role role (G.algebra algorithm) nodes) result (streams (I.left source.old) (O.written sink.old) (I.faults source.old) (O.faults sink.old)) (streams (I.left source.new) (O.written sink.new) (I.faults source.new) (O.faults sink.new)) }
    ensures shown { ShowsBad result (I.left source.old) shown.new }
{
    match role {
        NodeRole::First => run_role(alloc, FirstRole::new(algorithm, nodes), source, sink, shown),
        NodeRole::Stage1 => run_role(
            alloc,
            Stage1::new(alloc, algorithm, nodes),
            source,
            sink,
            shown,
        ),
        NodeRole::Stage2 => run_role(
            alloc,
            Stage2::new(alloc, algorithm, nodes),
            source,
            sink,
            shown,
        ),
        NodeRole::Number => run_role(
            alloc,
            NumberRole::new(algorithm, nodes),
            source,
            sink,
            shown,
        ),
    }
}

/// Runs a role over the blocks of an algorithm's nodes.
fn run_over_blocks<I: Source, O: Sink>(
    alloc: Global,
    role: BlockRole,
    algorithm: Algorithm,
    nodes: u32,
    block: u32,
    source: &mut I,
    sink: &mut O,
    shown: &mut Front,
) -> ChildStatus
    requires nodes { 1 ≤ nodes }
    requires block { 1 ≤ block }
    ensures runs { Runs (rule_over_blocks role algorithm nodes block) result (streams (I.left source.old) (O.written sink.old) (I.faults source.old) (O.faults sink.old)) (streams (I.left source.new) (O.written sink.new) (I.faults source.new) (O.faults sink.new)) }
    ensures shown { ShowsBad result (I.left source.old) shown.new }
{
    match algorithm {
        Algorithm::Hcc => run_block_role(
            alloc,
            role,
            Hcc::new(),
            nodes,
            block,
            source,
            sink,
            shown,
        ),
        Algorithm::PageRank => {
            run_block_role(
                alloc,
                role,
                PageRank::new(nodes),
                nodes,
                block,
                source,
                sink,
                shown,
            )
        }
        Algorithm::Hadi { seed } => {
            run_block_role(
                alloc,
                role,
                Hadi::new(seed),
                nodes,
                block,
                source,
                sink,
                shown,
            )
        }
    }
}

/// Runs a role over the blocks of this algorithm's nodes.
fn run_block_role<G: Gimv + Drop, I: Source, O: Sink>(
    alloc: Global,
    role: BlockRole,
    algorithm: G,
    nodes: u32,
    block: u32,
    source: &mut I,
    sink: &mut O,
    shown: &mut Front,
) -> ChildStatus
    requires { 1 ≤ block }
    ensures runs { Runs (rule_of_block_role role (G.algebra algorithm) nodes block) result (streams (I.left source.old) (O.written sink.old) (I.faults source.old) (O.faults sink.old)) (streams (I.left source.new) (O.written sink.new) (I.faults source.new) (O.faults sink.new)) }
    ensures shown { ShowsBad result (I.left source.old) shown.new }
{
    match role {
        BlockRole::FirstB => {
            run_role(
                alloc,
                FirstBlock::new(alloc, algorithm, nodes, block),
                source,
                sink,
                shown,
            )
        }
        BlockRole::Block1 => {
            run_role(
                alloc,
                Block1::new(alloc, algorithm, nodes, block),
                source,
                sink,
                shown,
            )
        }
        BlockRole::Block2 => {
            run_role(
                alloc,
                Block2::new(alloc, algorithm, nodes, block),
                source,
                sink,
                shown,
            )
        }
        BlockRole::Unblock => {
            run_role(
                alloc,
                Unblock::new(algorithm, nodes, block),
                source,
                sink,
                shown,
            )
        }
        BlockRole::Unplace => {
            run_role(
                alloc,
                Unplace::new(algorithm, nodes, block),
                source,
                sink,
                shown,
            )
        }
    }
}
