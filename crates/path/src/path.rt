// Searches in a path that was read (specs/Path.antt): the leaf at a layer and position, and the least level-0 offset that carries an id.
ghost use Rattle.std.specs.Prelude.{◌≡◌, ◌≤◌};
ghost use Rattle.path.specs.Search.{lesser, seek, leaf_of_level, seek_id, start_of_level};
ghost use Rattle.path.specs.Steps.{kind_there};
ghost use Rattle.format.specs.Answer.{parse_of};
ghost use Rattle.path.specs.Path.{node_at, leaf_in, start_in, LAYERS, places, layers_of, bump_path_of, cmp_path_of};
ghost use Rattle.path.specs.TscPath.{node_place_field, node_places, tsc_path_of};
ghost use Rattle.path.specs.Unchecked.{unchecked_leaf};

use super::walk::{leaf_at, pass_leaf, skip_level};
use format::{
    Bump, BumpHead, CmpHead, Cursor, Kind, Layout, Read, TscHead, hash_at, level_in_turn,
    read_node, read_varint, same_bytes,
};

// Layers that a path has room for.
pub const LAYERS: usize = Bump::MAX_HEIGHT as usize;

#[derive(Clone, Copy)]
pub enum Form {
    Bump,
    Cmp,
    Tsc,
}

// For each layer the place of its level's count, or of its node in a TSC proof.
#[derive(Clone, Copy)]
pub struct Path {
    pub form: Form,
    pub layers: usize,
    pub at: [usize; LAYERS],
}

fn kind_at(s: &[u8], c: Cursor, layout: Layout) -> Option<Kind>
    ensures { result ≡ kind_there (unchecked_leaf layout s.now c.at) }
{
    let Ok((leaf, _)) = leaf_at(s, c, layout) else {
        return None;
    };
    Some(leaf.kind)
}

fn seek_leaf(s: &[u8], c: Cursor, layout: Layout, count: u64, position: u64) -> Option<Kind>
    ensures { result ≡ seek layout position count s.now c.at }
{
    let mut next = c;
    for _ in 0..count {
        let Ok((leaf, after)) = pass_leaf(s, next, layout) else {
            return None;
        };
        if leaf.offset == position {
            return kind_at(s, next, layout);
        }
        next = after;
    }
    None
}

// The leaf at a position of the level at c.
pub fn find_in_level(s: &[u8], c: Cursor, layout: Layout, position: u64) -> Option<Kind>
    ensures { result ≡ leaf_of_level layout s.now c.at position }
{
    let Ok((count, next)) = read_varint(s, c) else {
        return None;
    };
    seek_leaf(s, next, layout, count, position)
}

fn find_node(s: &[u8], c: Cursor) -> Option<Kind>
    ensures { result ≡ node_at s.now c.at }
{
    let Ok((kind, _)) = read_node(s, c) else {
        return None;
    };
    Some(kind)
}

// What a path has at a layer and position: nothing past its layers.
pub fn find(s: &[u8], path: Path, layer: usize, position: u64) -> Option<Kind>
    ensures { result ≡ leaf_in s.now path layer position }
{
    if path.layers <= layer {
        return None;
    }
    if LAYERS <= layer {
        return None;
    }
    let at = path.at[layer];
    match path.form {
        Form::Bump => find_in_level(s, Cursor { at }, Layout::Bump, position),
        Form::Cmp => find_in_level(s, Cursor { at }, Layout::Cmp, position),
        Form::Tsc => find_node(s, Cursor { at }),
    }
}

fn lesser_of(a: Option<u64>, b: Option<u64>) -> Option<u64>
    ensures { result ≡ lesser a b }
{
    let Some(x) = a else {
        return b;
    };
    let Some(y) = b else {
        return a;
    };
    if x < y { a } else { b }
}

fn seek_id(s: &[u8], c: Cursor, layout: Layout, count: u64, id: [u8; 32]) -> Option<u64>
    ensures { result ≡ seek_id layout id count s.now c.at None }
{
    let mut best = None;
    let mut next = c;
    for _ in 0..count {
        let Ok((leaf, after)) = pass_leaf(s, next, layout) else {
            return None;
        };
        next = after;
        let Some(place) = leaf.place else {
            continue;
        };
        if same_bytes(hash_at(s, place), id) {
            best = lesser_of(best, Some(leaf.offset));
        }
    }
    best
}

fn find_id_in_level(s: &[u8], c: Cursor, layout: Layout, id: [u8; 32]) -> Option<u64>
    ensures { result ≡ start_of_level layout s.now c.at id }
{
    let Ok((count, next)) = read_varint(s, c) else {
        return None;
    };
    seek_id(s, next, layout, count, id)
}

// The least level-0 offset that carries the id in its 32 bytes.
pub fn find_id(s: &[u8], path: Path, id: [u8; 32]) -> Option<u64>
    ensures { result ≡ start_in s.now path id }
{
    let at = path.at[0];
    match path.form {
        Form::Bump => find_id_in_level(s, Cursor { at }, Layout::Bump, id),
        Form::Cmp => find_id_in_level(s, Cursor { at }, Layout::Cmp, id),
        Form::Tsc => None,
    }
}

// The places of a tree's levels, in one pass.
fn level_places(s: &[u8], c: Cursor, layout: Layout, height: u64) -> [usize; LAYERS]
    requires { height ≤ LAYERS }
    ensures { result ≡ places layout height s.now c.at }
{
    let mut known = [0usize; LAYERS];
    let mut next = c;
    for i in 0..height {
        let level = level_in_turn(layout, height, i);
        known[level as usize] = next.at;
        let Ok((_, after)) = skip_level(s, next, layout) else {
            return known;
        };
        next = after;
    }
    known
}

fn layers_of(height: u64) -> u64
    ensures { result ≡ layers_of height }
{
    if height < LAYERS as u64 {
        height
    } else {
        LAYERS as u64
    }
}

// The path of a BUMP that was read.
pub fn bump_path(s: &[u8], head: BumpHead) -> Path
    ensures { result ≡ bump_path_of s.now head }
{
    let layers = layers_of(head.height);
    let at = level_places(s, head.levels, Layout::Bump, layers);
    Path {
        form: Form::Bump,
        layers: layers as usize,
        at,
    }
}

// The path of a CMP that was read.
pub fn cmp_path(s: &[u8], head: CmpHead) -> Path
    ensures { result ≡ cmp_path_of s.now head }
{
    let layers = layers_of(head.height);
    let at = level_places(s, head.levels, Layout::Cmp, layers);
    Path {
        form: Form::Cmp,
        layers: layers as usize,
        at,
    }
}

// A node of a TSC proof, by its place.
fn node_place(s: &[u8], c: Cursor) -> Read<usize>
    ensures { parse_of result ≡ node_place_field s.now c.at }
{
    let (_, next) = read_node(s, c)?;
    Ok((c.at, next))
}

// The places of the nodes, in one pass.
fn node_places(s: &[u8], c: Cursor, count: usize) -> [usize; LAYERS]
    requires { count ≤ LAYERS }
    ensures { result ≡ node_places count s.now c.at }
{
    let mut known = [0usize; LAYERS];
    let mut next = c;
    for i in 0..count {
        let Ok((place, after)) = node_place(s, next) else {
            return [0usize; LAYERS];
        };
        known[i] = place;
        next = after;
    }
    known
}

// The path of a TSC proof that was read.
pub fn tsc_path(s: &[u8], head: TscHead) -> Path
    ensures { result ≡ tsc_path_of s.now head }
{
    let layers = layers_of(head.nodes) as usize;
    let at = node_places(s, head.nodes_at, layers);
    Path {
        form: Form::Tsc,
        layers,
        at,
    }
}
