ghost use Rattle.std.specs.Prelude.{◌≡◌, ◌≤◌, map, codes, option_map, IfSome};
ghost use Rattle.std.specs.String.{string_bytes};
ghost use Rattle.child.specs.Words.{HasNodes, algorithm_of, alone, asked_of, block_length_of, closed_in_blocks, kind_of, node_count_of, only_length, only_nodes, over_blocks, over_nodes, sides_of, with_sides};

use crate::roles::RoleName;
use peg_text::read_decimal;
use words::{bytes_at, number_between};

/// The most nodes that a role is told of: 2^30.
const MOST_NODES: u64 = 1_073_741_824;

/// The most nodes that a block has.
const LONGEST_BLOCK: u64 = 256;

/// An algorithm that a word names.
#[derive(Clone, Copy, Debug, PartialEq, Eq)]
pub enum Algorithm {
    Hcc,
    PageRank,
    Hadi { seed: u64 },
}

/// A role over the nodes of an algorithm.
#[derive(Clone, Copy, Debug, PartialEq, Eq)]
pub enum NodeRole {
    First,
    Stage1,
    Stage2,
    Number,
}

/// A role over the blocks of an algorithm's nodes.
#[derive(Clone, Copy, Debug, PartialEq, Eq)]
pub enum BlockRole {
    FirstB,
    Block1,
    Block2,
    Unblock,
    Unplace,
}

/// What words ask for.
#[derive(Clone, Copy, Debug, PartialEq, Eq)]
pub enum Kind {
    Id,
    Edges {
        nodes: u32,
    },
    Entries {
        both: bool,
    },
    Degrees,
    Place,
    Nodes {
        role: NodeRole,
        algorithm: Algorithm,
        nodes: u32,
    },
    Group {
        block: u32,
    },
    Cut {
        block: u32,
    },
    Blocks,
    InBlocks {
        role: BlockRole,
        algorithm: Algorithm,
        nodes: u32,
        block: u32,
    },
    /// `diag1`, for components.
    Diagonal {
        nodes: u32,
        block: u32,
    },
}

/// The role that these words name, if there is one.
pub fn read_kind(words: &[String]) -> Option<Kind>
    ensures is { result ≡ kind_of (map string_bytes words.now) }
    ensures nodes { IfSome result HasNodes }
{
    read_asked(RoleName::named(bytes_at(words, 0))?, words)
}

/// The table of roles: what these words ask for, where the first one names this role.
fn read_asked(role: RoleName, words: &[String]) -> Option<Kind>
    ensures is { result ≡ asked_of (map string_bytes words.now) role }
    ensures nodes { IfSome result HasNodes }
{
    match role {
        RoleName::Id => read_alone(Kind::Id, words),
        RoleName::Edges => read_edges(words),
        RoleName::Entries => read_with_sides(words),
        RoleName::Degrees => read_alone(Kind::Degrees, words),
        RoleName::First => read_over_nodes(NodeRole::First, words),
        RoleName::Stage1 => read_over_nodes(NodeRole::Stage1, words),
        RoleName::Stage2 => read_over_nodes(NodeRole::Stage2, words),
        RoleName::Number => read_over_nodes(NodeRole::Number, words),
        RoleName::Group => read_group(words),
        RoleName::FirstB => read_over_blocks(BlockRole::FirstB, words),
        RoleName::Cut => read_cut(words),
        RoleName::Blocks => read_alone(Kind::Blocks, words),
        RoleName::Block1 => read_over_blocks(BlockRole::Block1, words),
        RoleName::Diag1 => read_closed(words),
        RoleName::Block2 => read_over_blocks(BlockRole::Block2, words),
        RoleName::Unblock => read_over_blocks(BlockRole::Unblock, words),
        RoleName::Unplace => read_over_blocks(BlockRole::Unplace, words),
        RoleName::Place => read_alone(Kind::Place, words),
    }
}

/// A role that is a word by itself.
fn read_alone(kind: Kind, words: &[String]) -> Option<Kind>
    requires { HasNodes kind }
    ensures is { result ≡ alone kind (map string_bytes words.now) }
    ensures nodes { IfSome result HasNodes }
{
    if words.len() != 1 {
        return None;
    }
    Some(kind)
}

/// The role `edges`.
fn read_edges(words: &[String]) -> Option<Kind>
    ensures is { result ≡ option_map Kind.Edges (only_nodes (map string_bytes words.now)) }
    ensures nodes { IfSome result HasNodes }
{
    if words.len() != 2 {
        return None;
    }
    let nodes = read_node_count(bytes_at(words, 1))?;
    Some(Kind::Edges { nodes })
}

/// The role `entries`, with one entry or both for an edge.
fn read_with_sides(words: &[String]) -> Option<Kind>
    ensures is { result ≡ with_sides (map string_bytes words.now) }
    ensures nodes { IfSome result HasNodes }
{
    if words.len() != 2 {
        return None;
    }
    let both = read_sides(bytes_at(words, 1))?;
    Some(Kind::Entries { both })
}

fn read_sides(word: &[u8]) -> Option<bool>
    ensures { result ≡ sides_of word.now }
{
    if word == b"both".as_slice() {
        return Some(true);
    }
    if word == b"one".as_slice() {
        return Some(false);
    }
    None
}

/// A role over the nodes of an algorithm.
fn read_over_nodes(role: NodeRole, words: &[String]) -> Option<Kind>
    ensures is { result ≡ over_nodes role (map string_bytes words.now) }
    ensures nodes { IfSome result HasNodes }
{
    if words.len() != 3 {
        return None;
    }
    let algorithm = read_algorithm(bytes_at(words, 1))?;
    let nodes = read_node_count(bytes_at(words, 2))?;
    Some(Kind::Nodes {
        role,
        algorithm,
        nodes,
    })
}

/// The role `group`.
fn read_group(words: &[String]) -> Option<Kind>
    ensures is { result ≡ option_map Kind.Group (only_length (map string_bytes words.now)) }
    ensures nodes { IfSome result HasNodes }
{
    let block = read_only_length(words)?;
    Some(Kind::Group { block })
}

/// The role `cut`.
fn read_cut(words: &[String]) -> Option<Kind>
    ensures is { result ≡ option_map Kind.Cut (only_length (map string_bytes words.now)) }
    ensures nodes { IfSome result HasNodes }
{
    let block = read_only_length(words)?;
    Some(Kind::Cut { block })
}

/// The length of a block, where nothing else follows the name of a role.
fn read_only_length(words: &[String]) -> Option<u32>
    ensures is { result ≡ only_length (map string_bytes words.now) }
    ensures some { IfSome result (λ block. 1 ≤ block) }
{
    if words.len() != 2 {
        return None;
    }
    read_block_length(bytes_at(words, 1))
}

/// A role over the blocks of an algorithm's nodes.
fn read_over_blocks(role: BlockRole, words: &[String]) -> Option<Kind>
    ensures is { result ≡ over_blocks role (map string_bytes words.now) }
    ensures nodes { IfSome result HasNodes }
{
    if words.len() != 4 {
        return None;
    }
    let algorithm = read_algorithm(bytes_at(words, 1))?;
    let nodes = read_node_count(bytes_at(words, 2))?;
    let block = read_block_length(bytes_at(words, 3))?;
    Some(Kind::InBlocks {
        role,
        algorithm,
        nodes,
        block,
    })
}

/// The role `diag1`.
fn read_closed(words: &[String]) -> Option<Kind>
    ensures is { result ≡ closed_in_blocks (map string_bytes words.now) }
    ensures nodes { IfSome result HasNodes }
{
    if words.len() != 3 {
        return None;
    }
    let nodes = read_node_count(bytes_at(words, 1))?;
    let block = read_block_length(bytes_at(words, 2))?;
    Some(Kind::Diagonal { nodes, block })
}

fn read_algorithm(word: &[u8]) -> Option<Algorithm>
    ensures { result ≡ algorithm_of word.now }
{
    if word == b"hcc".as_slice() {
        return Some(Algorithm::Hcc);
    }
    if word == b"pagerank".as_slice() {
        return Some(Algorithm::PageRank);
    }
    let seed = read_decimal(word.strip_prefix(b"hadi=")?)?;
    Some(Algorithm::Hadi { seed })
}

/// The number of nodes, from 1 to 2^30.
fn read_node_count(word: &[u8]) -> Option<u32>
    ensures is { result ≡ node_count_of word.now }
    ensures some { IfSome result (λ nodes. 1 ≤ nodes) }
{
    let nodes = number_between(1, MOST_NODES, word)?;
    Some(nodes as u32)
}

/// The number of nodes of a block, from 1 to 256.
fn read_block_length(word: &[u8]) -> Option<u32>
    ensures is { result ≡ block_length_of word.now }
    ensures some { IfSome result (λ block. 1 ≤ block) }
{
    let block = number_between(1, LONGEST_BLOCK, word)?;
    Some(block as u32)
}
