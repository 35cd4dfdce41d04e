//! Which lists of tokens have a tree.
ghost use Rattle.std.specs.Prelude.{◌≡◌, ◌≤◌, true, map};
ghost use Rattle.std.specs.Bool.{OnTrue};
ghost use Rattle.std.specs.List.{list_all};
ghost use Rattle.json.specs.Tape.{node_token};
ghost use Rattle.lost_tape.specs.Tapes.{is_sure, level_after, nests_within};

use crate::numbers::whole_number;
use json::Node;

/// How deep the values of a tree may nest, as serde_json reads it.
const MAX_DEPTH: usize = 127;

/// Whether the values of a line nest at most 127 deep, and each number is whole and fits in 64 bits.
pub(crate) fn are_sure(nodes: &[Node<'_>]) -> bool
    ensures nests { OnTrue result (nests_within 0 (map node_token nodes.now) ≡ true) }
    ensures numbers { OnTrue result (list_all is_sure (map node_token nodes.now) ≡ true) }
{
    let mut level = 0;
    for node in nodes {
        level = level_after(level, node);
        if level > MAX_DEPTH || !is_sure(node) {
            return false;
        }
    }
    true
}

fn is_sure(node: &Node<'_>) -> bool
    ensures { OnTrue result (is_sure (node_token node.now) ≡ true) }
{
    match node {
        Node::Number(text) => whole_number(text).is_some(),
        _ => true,
    }
}

/// The level of nesting after a token.
fn level_after(level: usize, node: &Node<'_>) -> usize
    requires { level ≤ 127 }
    ensures { result ≡ level_after level (node_token node.now) }
{
    match node {
        Node::Object(_) | Node::Array(_) => level + 1,
        Node::EndObject | Node::EndArray => level.saturating_sub(1),
        _ => level,
    }
}
