use kv_num::IntType;

/// The name of a term: its place in the table, counted from 0.
#[derive(Clone, Copy, Debug, PartialEq, Eq, Hash)]
pub struct TermId(pub u64);

/// Which numbers a term can have: how many bits they take, from 1 to 64, and whether one of them is a
/// sign, in two's complement (6.2.6.2).
#[derive(Clone, Copy, Debug, PartialEq, Eq, Hash)]
pub struct Shape {
    pub width: u32,
    pub signed: bool,
}

impl Shape {
    ghost use Rattle.std.specs.Prelude.{◌≡◌};
    ghost use Rattle.term_core.specs.Shape.{one_bit, shape_of};

    /// The shape of a truth.
    pub const TRUTH: Shape = Shape {
        width: 1,
        signed: false,
    };

    /// The shape of an integer type's numbers.
    pub fn of(t: IntType) -> Shape
        ensures { result ≡ shape_of t }
    {
        Shape {
            width: kv_num::width(t),
            signed: kv_num::is_signed(t),
        }
    }
}

/// An operation on one number.
#[derive(Clone, Copy, Debug, PartialEq, Eq, Hash)]
pub enum UnaryOp {
    Negate,
    BitNot,
}

/// An operation on two numbers. The second operand of a shift is its distance, read without a sign.
#[derive(Clone, Copy, Debug, PartialEq, Eq, Hash)]
pub enum BinaryOp {
    Add,
    Sub,
    Mul,
    Div,
    Rem,
    ShiftLeft,
    ShiftRight,
    BitAnd,
    BitOr,
    BitXor,
    Less,
    Equal,
}

/// What a term is made of. A truth is 0 or 1, in one bit without a sign.
#[derive(Clone, Copy, Debug, PartialEq, Eq, Hash)]
pub enum TermKind {
    /// A number of the term's shape.
    Constant {
        number: i128,
    },
    /// A number that the environment gives, wrapped.
    Variable {
        number: u64,
    },
    /// The result of an operation, wrapped.
    Unary {
        op: UnaryOp,
        of: TermId,
    },
    /// The result of an operation, wrapped; of a comparison a truth.
    Binary {
        op: BinaryOp,
        left: TermId,
        right: TermId,
    },
    /// The truth of the exact result fitting the shape of the operands; of a remainder, of the quotient fitting it, and
    /// of a shift to the left also of the left operand not being negative (6.5.7).
    Fits {
        op: BinaryOp,
        left: TermId,
        right: TermId,
    },
    /// The one number where the test is true, and else the other.
    Select {
        test: TermId,
        yes: TermId,
        no: TermId,
    },
    /// A number of another shape, wrapped.
    Convert {
        of: TermId,
    },
}

/// A term: what it is made of, and its shape.
#[derive(Clone, Copy, Debug, PartialEq, Eq, Hash)]
pub struct Term {
    pub shape: Shape,
    pub kind: TermKind,
}
