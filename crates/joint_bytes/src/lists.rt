//! The bytes of lists: so many places, of which the first have the list's items.

ghost use Rattle.std.specs.Prelude.{◌≡◌, ◌≤◌, ◌<◌, ◌+◌, ◌*◌, ◌++◌, length, slice_index, true};
ghost use Rattle.arrayvec.specs.ArrayVec.{array_vec_len};
ghost use Rattle.joint_bytes.specs.Lists.{edge_bytes, edge_in, edges_bytes, edges_in, have_places, words_bytes, words_in};

use arrayvec::ArrayVec;
use board_terms::{Edge, Place};
use hex_text::append;
use mcs48_bytes::{number_at, truth_at, word_at};

/// Appends the places for words.
pub fn push_words(bytes: &mut ArrayVec<u8, 3077>, words: &[u16], places: usize)
    requires room { array_vec_len bytes.old + 2 * places ≤ 3077 }
    requires few { length words.now ≤ places }
    ensures bytes { bytes.new.items ≡ bytes.old.items ++ words_bytes places words.now }
    ensures read { words_in (length words.now) (words_bytes places words.now) ≡ words.now }
    ensures count { array_vec_len bytes.new ≡ array_vec_len bytes.old + 2 * places }
{
    if places == 0 {
        return;
    }
    match words {
        [] => {
            append(bytes, &[0, 0]);
            push_words(bytes, words, places - 1);
        }
        [word, later @ ..] => {
            append(bytes, &word.to_le_bytes());
            push_words(bytes, later, places - 1);
        }
    }
}

/// Appends the words of the first places to a list that has room for them.
pub fn take_words(words: &mut ArrayVec<u16, 15>, bytes: &[u8], count: usize)
    requires room { array_vec_len words.old + count ≤ 15 }
    requires bytes { 2 * count ≤ length bytes.now }
    ensures words { words.new.items ≡ words.old.items ++ words_in count bytes.now }
{
    if count == 0 {
        return;
    }
    words.push(word_at(bytes, 0));
    take_words(words, &bytes[2..], count - 1);
}

/// The bytes of an edge. They are read as this edge.
fn edge_bytes(edge: &Edge) -> [u8; 10]
    ensures bytes { result ≡ edge_bytes edge.now }
    ensures read { edge_in result ≡ edge.now }
    ensures place { slice_index result 8 < 96 }
{
    let [a, b, c, d, e, f, g, h] = edge.stamp.to_le_bytes();
    [
        a,
        b,
        c,
        d,
        e,
        f,
        g,
        h,
        edge.place.number(),
        u8::from(edge.down),
    ]
}

/// The edge that these bytes mean.
fn edge_in(bytes: &[u8]) -> Edge
    requires bytes { 10 ≤ length bytes.now }
    requires place { slice_index bytes.now 8 < 96 }
    ensures { result ≡ edge_in bytes.now }
{
    let place = bytes[8];
    Edge {
        stamp: number_at(bytes, 0),
        place: Place::numbered(place).unwrap(),
        down: truth_at(bytes, 9),
    }
}

/// Appends the places for edges. What is appended is read as these edges.
pub fn push_edges(bytes: &mut ArrayVec<u8, 3077>, edges: &[Edge], places: usize)
    requires room { array_vec_len bytes.old + 10 * places ≤ 3077 }
    requires few { length edges.now ≤ places }
    ensures bytes { bytes.new.items ≡ bytes.old.items ++ edges_bytes places edges.now }
    ensures count { array_vec_len bytes.new ≡ array_vec_len bytes.old + 10 * places }
    ensures read { edges_in (length edges.now) (edges_bytes places edges.now) ≡ edges.now }
    ensures places { have_places (length edges.now) (edges_bytes places edges.now) ≡ true }
{
    if places == 0 {
        return;
    }
    match edges {
        [] => {
            append(bytes, &[0; 10]);
            push_edges(bytes, edges, places - 1);
        }
        [edge, later @ ..] => {
            append(bytes, &edge_bytes(edge));
            push_edges(bytes, later, places - 1);
        }
    }
}

/// Whether the first of these edges are at places of the matrix.
pub fn have_places(bytes: &[u8], count: usize) -> bool
    requires bytes { 10 * count ≤ length bytes.now }
    ensures { result ≡ have_places count bytes.now }
{
    count == 0 || bytes[8] < 96 && have_places(&bytes[10..], count - 1)
}

/// Appends the first of these edges to a list that has room for them.
pub fn take_edges(edges: &mut ArrayVec<Edge, 4>, bytes: &[u8], count: usize)
    requires room { array_vec_len edges.old + count ≤ 4 }
    requires bytes { 10 * count ≤ length bytes.now }
    requires places { have_places count bytes.now ≡ true }
    ensures edges { edges.new.items ≡ edges.old.items ++ edges_in count bytes.now }
{
    if count == 0 {
        return;
    }
    edges.push(edge_in(bytes));
    take_edges(edges, &bytes[10..], count - 1);
}
