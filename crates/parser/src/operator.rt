// The operators between two operands, and how strongly they bind.
ghost use Rattle.std.specs.Prelude.{◌≡◌};
ghost use Rattle.parser.specs.Operators.{left_power, right_power};

use lua_tree::BinaryOp;

/// An operator that stands between two operands.
#[derive(Clone, Copy, Debug, PartialEq, Eq)]
pub enum Infix {
    And,
    Or,
    Binary(BinaryOp),
}

impl Infix {
    /// How strongly it binds the operand before it.
    pub fn left_power(self) -> u8
        ensures { result ≡ left_power self }
    {
        match self {
            Infix::Or => 1,
            Infix::And => 2,
            Infix::Binary(op) => match op {
                BinaryOp::Lt
                | BinaryOp::Gt
                | BinaryOp::Le
                | BinaryOp::Ge
                | BinaryOp::Ne
                | BinaryOp::Eq => 3,
                BinaryOp::Concat => 5,
                BinaryOp::Add | BinaryOp::Sub => 6,
                BinaryOp::Mul | BinaryOp::Div | BinaryOp::Rem => 7,
                BinaryOp::Pow => 10,
            },
        }
    }

    /// How strongly it binds the operand behind it: less where it is right associative.
    pub fn right_power(self) -> u8
        ensures { result ≡ right_power self }
    {
        match self {
            Infix::Binary(BinaryOp::Concat) => 4,
            Infix::Binary(BinaryOp::Pow) => 9,
            op => op.left_power(),
        }
    }
}
