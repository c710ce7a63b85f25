// The small matrices of coefficients for nodes. Each function lists the points of its nodes, in rising order of the nodes (those of a set by `code::points_of`), and
// hands the lists on to crate coefficients, which knows of points alone. No crate above turns a node into a point.
#![tactic(auto)]

ghost use Rattle.code.specs.Points.{points_of};
ghost use Rattle.coefficients.specs.Coefficients.{ReadsPost, ExtendsPost};
ghost use Rattle.node_rows.specs.Rows.{EncodesPost};

use code::{point, points_of};
use coefficients::{completion_rows, power_rows, reading_rows};
use params::{Node, NodeSet};

// rows := a row for each of the nodes 1, .., n: the powers 1, .., m of its point. Where n exceeds 32, or rows has not just the length of these, nothing is written.
pub fn encoding_rows(n: usize, m: usize, rows: &mut [u8])
    ensures { EncodesPost n m rows.old rows.new }
{
    if 32 < n {
        return;
    }
    let mut points = [0u8; 32];
    // (not `points_of` of the set of all nodes: to go over a set made a set-up of 32 nodes with short blocks up to a quarter slower)
    for (j, place) in points[..n].iter_mut().enumerate() {
        *place = point(Node(j as u8 + 1)).0;
    }
    power_rows(&points[..n], m, rows);
}

// rows := what takes the blocks of from's nodes to the k leading parts, where message and slack have as many parts as from has nodes. Where it has fewer than k, or rows
// has not just the length of these rows, nothing is written.
pub fn decoding_rows(k: usize, from: NodeSet, rows: &mut [u8])
    ensures { ReadsPost k (points_of from.0) rows.old rows.new }
{
    let mut points = [0u8; 32];
    let count = points_of(from, &mut points);
    reading_rows(k, &points[..count], rows);
}

// leading and gains := what takes e leading parts, and the blocks of the nodes of `at`, to the blocks of the targets, where as many parts follow the leading ones as `at`
// has nodes. Where e exceeds 32, or one has not just the length of its rows, nothing is written.
pub fn extending_rows(e: usize, at: NodeSet, targets: NodeSet, leading: &mut [u8], gains: &mut [u8])
    ensures { ExtendsPost e (points_of at.0) (points_of targets.0) leading.old gains.old leading.new gains.new }
{
    let mut known = [0u8; 32];
    let m = points_of(at, &mut known);
    let mut wanted = [0u8; 32];
    let count = points_of(targets, &mut wanted);
    completion_rows(e, &known[..m], &wanted[..count], leading, gains);
}
