//! The signature of higher-order logic: its text, the names of its symbols, and the trees of their types.
ghost use Rattle.std.specs.Prelude.{◌≡◌, ◌<◌, [], length, position, slice_get, IsTrue, OnOk, Some};
ghost use Rattle.std.specs.Str.{bytes_eq};
ghost use Rattle.lp_spec.specs.Modules.{signature, symbol_name};
ghost use Rattle.lp_term.specs.Tables.{IsDistinct};
ghost use Rattle.holide_sig.specs.Modules.{signature_ids};
ghost use Rattle.holide_sig.specs.Nodes.{are_new, trees_with};

use common::Memory;
use lp_term::{LpId, LpNode, LpTable};

/// How many symbols the signature declares.
pub const SIGNATURE: usize = NAMES.len();

/// The bytes with which the text of every module begins.
pub const PRELUDE: &[u8] = b"type : Type.
bool : type.
ind : type.
arr : type -> type -> type.
def term : type -> Type.
[a, b] term (arr a b) --> term a -> term b.
eq : a : type -> term (arr a (arr a bool)).
select : a : type -> term (arr (arr a bool) a).
proof : term bool -> Type.
refl : a : type -> x : term a -> proof (eq a x x).
fun_ext : a : type -> b : type -> f : term (arr a b) -> g : term (arr a b) -> (x : term a -> proof (eq b (f x) (g x))) -> proof (eq (arr a b) f g).
app_thm : a : type -> b : type -> f : term (arr a b) -> g : term (arr a b) -> x : term a -> y : term a -> proof (eq (arr a b) f g) -> proof (eq a x y) -> proof (eq b (f x) (g y)).
prop_ext : p : term bool -> q : term bool -> (proof p -> proof q) -> (proof q -> proof p) -> proof (eq bool p q).
eq_mp : p : term bool -> q : term bool -> proof (eq bool p q) -> proof p -> proof q.
sub : a : type -> p : term (arr a bool) -> w : term a -> proof (p w) -> type.
sub_abs : a : type -> p : term (arr a bool) -> w : term a -> h : proof (p w) -> term (arr a (sub a p w h)).
sub_rep : a : type -> p : term (arr a bool) -> w : term a -> h : proof (p w) -> term (arr (sub a p w h) a).
sub_abs_rep : a : type -> p : term (arr a bool) -> w : term a -> h : proof (p w) -> x : term (sub a p w h) -> proof (eq (sub a p w h) (sub_abs a p w h (sub_rep a p w h x)) x).
sub_rep_abs : a : type -> p : term (arr a bool) -> w : term a -> h : proof (p w) -> x : term a -> proof (eq bool (eq a (sub_rep a p w h (sub_abs a p w h x)) x) (p x)).
";

// The names of the signature's symbols, in its order.
const NAMES: &[&[u8]] = &[
    b"type",
    b"bool",
    b"ind",
    b"arr",
    b"term",
    b"eq",
    b"select",
    b"proof",
    b"refl",
    b"fun_ext",
    b"app_thm",
    b"prop_ext",
    b"eq_mp",
    b"sub",
    b"sub_abs",
    b"sub_rep",
    b"sub_abs_rep",
    b"sub_rep_abs",
];

// How many bytes the name of a symbol of the signature has at most.
const LONGEST: usize = 11;

// The numbers of the types of the signature's symbols among `NODES`.
const TYPES: &[usize] = &[
    0, 1, 1, 15, 16, 21, 25, 27, 34, 59, 83, 95, 103, 110, 122, 129, 155, 169,
];

// What the types of the signature's symbols consist of, each tree after its parts and none twice.
pub(crate) const NODES: &[LpNode] = &[
    LpNode::SortType,
    LpNode::Sym(0),
    LpNode::Sym(1),
    LpNode::Sym(3),
    LpNode::Sym(4),
    LpNode::Sym(5),
    LpNode::Sym(7),
    LpNode::Var(0),
    LpNode::Var(1),
    LpNode::Var(2),
    LpNode::Var(3),
    LpNode::Var(4),
    LpNode::Var(5),
    LpNode::Var(6),
    // arr
    LpNode::Pi(LpId(1), LpId(1)),
    LpNode::Pi(LpId(1), LpId(14)),
    // term
    LpNode::Pi(LpId(1), LpId(0)),
    // eq
    LpNode::App(LpId(3), LpId(7)),
    LpNode::App(LpId(17), LpId(2)),
    LpNode::App(LpId(17), LpId(18)),
    LpNode::App(LpId(4), LpId(19)),
    LpNode::Pi(LpId(1), LpId(20)),
    // select
    LpNode::App(LpId(3), LpId(18)),
    LpNode::App(LpId(22), LpId(7)),
    LpNode::App(LpId(4), LpId(23)),
    LpNode::Pi(LpId(1), LpId(24)),
    // proof
    LpNode::App(LpId(4), LpId(2)),
    LpNode::Pi(LpId(26), LpId(0)),
    // refl
    LpNode::App(LpId(4), LpId(7)),
    LpNode::App(LpId(5), LpId(8)),
    LpNode::App(LpId(29), LpId(7)),
    LpNode::App(LpId(30), LpId(7)),
    LpNode::App(LpId(6), LpId(31)),
    LpNode::Pi(LpId(28), LpId(32)),
    LpNode::Pi(LpId(1), LpId(33)),
    // fun_ext
    LpNode::App(LpId(3), LpId(8)),
    LpNode::App(LpId(35), LpId(7)),
    LpNode::App(LpId(4), LpId(36)),
    LpNode::App(LpId(3), LpId(9)),
    LpNode::App(LpId(38), LpId(8)),
    LpNode::App(LpId(4), LpId(39)),
    LpNode::App(LpId(4), LpId(10)),
    LpNode::App(LpId(9), LpId(7)),
    LpNode::App(LpId(8), LpId(7)),
    LpNode::App(LpId(5), LpId(10)),
    LpNode::App(LpId(44), LpId(42)),
    LpNode::App(LpId(45), LpId(43)),
    LpNode::App(LpId(6), LpId(46)),
    LpNode::Pi(LpId(41), LpId(47)),
    LpNode::App(LpId(3), LpId(11)),
    LpNode::App(LpId(49), LpId(10)),
    LpNode::App(LpId(5), LpId(50)),
    LpNode::App(LpId(51), LpId(9)),
    LpNode::App(LpId(52), LpId(8)),
    LpNode::App(LpId(6), LpId(53)),
    LpNode::Pi(LpId(48), LpId(54)),
    LpNode::Pi(LpId(40), LpId(55)),
    LpNode::Pi(LpId(37), LpId(56)),
    LpNode::Pi(LpId(1), LpId(57)),
    LpNode::Pi(LpId(1), LpId(58)),
    // app_thm
    LpNode::App(LpId(4), LpId(11)),
    LpNode::App(LpId(3), LpId(12)),
    LpNode::App(LpId(61), LpId(11)),
    LpNode::App(LpId(5), LpId(62)),
    LpNode::App(LpId(63), LpId(10)),
    LpNode::App(LpId(64), LpId(9)),
    LpNode::App(LpId(6), LpId(65)),
    LpNode::App(LpId(5), LpId(13)),
    LpNode::App(LpId(67), LpId(9)),
    LpNode::App(LpId(68), LpId(8)),
    LpNode::App(LpId(6), LpId(69)),
    LpNode::App(LpId(12), LpId(10)),
    LpNode::App(LpId(11), LpId(9)),
    LpNode::App(LpId(67), LpId(71)),
    LpNode::App(LpId(73), LpId(72)),
    LpNode::App(LpId(6), LpId(74)),
    LpNode::Pi(LpId(70), LpId(75)),
    LpNode::Pi(LpId(66), LpId(76)),
    LpNode::Pi(LpId(60), LpId(77)),
    LpNode::Pi(LpId(41), LpId(78)),
    LpNode::Pi(LpId(40), LpId(79)),
    LpNode::Pi(LpId(37), LpId(80)),
    LpNode::Pi(LpId(1), LpId(81)),
    LpNode::Pi(LpId(1), LpId(82)),
    // prop_ext
    LpNode::App(LpId(6), LpId(8)),
    LpNode::Pi(LpId(84), LpId(84)),
    LpNode::App(LpId(6), LpId(10)),
    LpNode::Pi(LpId(84), LpId(86)),
    LpNode::App(LpId(5), LpId(2)),
    LpNode::App(LpId(88), LpId(10)),
    LpNode::App(LpId(89), LpId(9)),
    LpNode::App(LpId(6), LpId(90)),
    LpNode::Pi(LpId(87), LpId(91)),
    LpNode::Pi(LpId(85), LpId(92)),
    LpNode::Pi(LpId(26), LpId(93)),
    LpNode::Pi(LpId(26), LpId(94)),
    // eq_mp
    LpNode::App(LpId(88), LpId(8)),
    LpNode::App(LpId(96), LpId(7)),
    LpNode::App(LpId(6), LpId(97)),
    LpNode::App(LpId(6), LpId(9)),
    LpNode::Pi(LpId(99), LpId(99)),
    LpNode::Pi(LpId(98), LpId(100)),
    LpNode::Pi(LpId(26), LpId(101)),
    LpNode::Pi(LpId(26), LpId(102)),
    // sub
    LpNode::App(LpId(4), LpId(18)),
    LpNode::App(LpId(4), LpId(8)),
    LpNode::App(LpId(6), LpId(43)),
    LpNode::Pi(LpId(106), LpId(1)),
    LpNode::Pi(LpId(105), LpId(107)),
    LpNode::Pi(LpId(104), LpId(108)),
    LpNode::Pi(LpId(1), LpId(109)),
    // sub_abs
    LpNode::Sym(13),
    LpNode::App(LpId(111), LpId(10)),
    LpNode::App(LpId(112), LpId(9)),
    LpNode::App(LpId(113), LpId(8)),
    LpNode::App(LpId(114), LpId(7)),
    LpNode::App(LpId(3), LpId(10)),
    LpNode::App(LpId(116), LpId(115)),
    LpNode::App(LpId(4), LpId(117)),
    LpNode::Pi(LpId(106), LpId(118)),
    LpNode::Pi(LpId(105), LpId(119)),
    LpNode::Pi(LpId(104), LpId(120)),
    LpNode::Pi(LpId(1), LpId(121)),
    // sub_rep
    LpNode::App(LpId(3), LpId(115)),
    LpNode::App(LpId(123), LpId(10)),
    LpNode::App(LpId(4), LpId(124)),
    LpNode::Pi(LpId(106), LpId(125)),
    LpNode::Pi(LpId(105), LpId(126)),
    LpNode::Pi(LpId(104), LpId(127)),
    LpNode::Pi(LpId(1), LpId(128)),
    // sub_abs_rep
    LpNode::App(LpId(4), LpId(115)),
    LpNode::App(LpId(111), LpId(11)),
    LpNode::App(LpId(131), LpId(10)),
    LpNode::App(LpId(132), LpId(9)),
    LpNode::App(LpId(133), LpId(8)),
    LpNode::Sym(14),
    LpNode::App(LpId(135), LpId(11)),
    LpNode::App(LpId(136), LpId(10)),
    LpNode::App(LpId(137), LpId(9)),
    LpNode::App(LpId(138), LpId(8)),
    LpNode::Sym(15),
    LpNode::App(LpId(140), LpId(11)),
    LpNode::App(LpId(141), LpId(10)),
    LpNode::App(LpId(142), LpId(9)),
    LpNode::App(LpId(143), LpId(8)),
    LpNode::App(LpId(144), LpId(7)),
    LpNode::App(LpId(139), LpId(145)),
    LpNode::App(LpId(5), LpId(134)),
    LpNode::App(LpId(147), LpId(146)),
    LpNode::App(LpId(148), LpId(7)),
    LpNode::App(LpId(6), LpId(149)),
    LpNode::Pi(LpId(130), LpId(150)),
    LpNode::Pi(LpId(106), LpId(151)),
    LpNode::Pi(LpId(105), LpId(152)),
    LpNode::Pi(LpId(104), LpId(153)),
    LpNode::Pi(LpId(1), LpId(154)),
    // sub_rep_abs
    LpNode::App(LpId(139), LpId(7)),
    LpNode::App(LpId(144), LpId(156)),
    LpNode::App(LpId(5), LpId(11)),
    LpNode::App(LpId(158), LpId(157)),
    LpNode::App(LpId(159), LpId(7)),
    LpNode::App(LpId(10), LpId(7)),
    LpNode::App(LpId(88), LpId(160)),
    LpNode::App(LpId(162), LpId(161)),
    LpNode::App(LpId(6), LpId(163)),
    LpNode::Pi(LpId(41), LpId(164)),
    LpNode::Pi(LpId(106), LpId(165)),
    LpNode::Pi(LpId(105), LpId(166)),
    LpNode::Pi(LpId(104), LpId(167)),
    LpNode::Pi(LpId(1), LpId(168)),
];

/// The name of a symbol of the signature.
pub(crate) fn signature_name(symbol: usize) -> &'static [u8]
    requires { symbol < length signature }
    ensures { result.now ≡ symbol_name [] symbol }
{
    NAMES[symbol]
}

/// The symbol of the signature of that name.
pub(crate) fn signature_symbol(name: &[u8]) -> Option<usize>
    ensures { result ≡ position (λ d. bytes_eq d.name name.now) signature }
{
    if name.len() > LONGEST {
        return None;
    }
    place_of(NAMES, name)
}

// The first place of a name among some names.
fn place_of(names: &[&[u8]], name: &[u8]) -> Option<usize>
    ensures { result ≡ position (λ known. bytes_eq known.now name.now) names.now }
{
    names.iter().position(|known| *known == name)
}

/// The number at which the type of a symbol of the signature stands.
pub(crate) fn signature_type(symbol: usize) -> LpId
    requires { symbol < length signature }
    ensures { slice_get signature_ids symbol ≡ Some result.0 }
{
    LpId(TYPES[symbol])
}

/// Adds the trees of these nodes.
pub(crate) fn add_nodes(table: &mut LpTable, nodes: &[LpNode]) -> Result<(), Memory>
    requires distinct { IsDistinct table.old }
    requires new { IsTrue (are_new table.old nodes.now) }
    ensures made { OnOk result (table.new ≡ trees_with table.old nodes.now) }
    ensures distinct { IsDistinct table.new }
{
    for node in nodes {
        table.node(*node)?;
    }
    Ok(())
}
