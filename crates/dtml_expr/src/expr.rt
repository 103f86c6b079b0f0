use zbase::Text;

/// How two values are compared.
#[derive(Clone, Copy, Debug, PartialEq, Eq)]
pub enum Order {
    /// `==`
    Eq,
    /// `!=`
    Ne,
    /// `<`
    Lt,
    /// `>`
    Gt,
    /// `<=`
    Le,
    /// `>=`
    Ge,
}

/// An expression. Brackets, and a rule with one operand, have no variant of their own.
#[cycle(expr)]
#[derive(Debug)]
pub enum Expr {
    /// A number of 64 bits with its sign.
    Number(i64),
    /// A text, without its quotes.
    Quoted(Text),
    /// The value of a name.
    Name(Text),
    /// At least two operands.
    Or(Exprs),
    /// At least two operands.
    And(Exprs),
    Not(Box<Expr>),
    Compare(Box<Expr>, Order, Box<Expr>),
    Add(Box<Expr>, Box<Expr>),
    Sub(Box<Expr>, Box<Expr>),
    Mul(Box<Expr>, Box<Expr>),
    /// The value of a name in an object.
    Dot(Box<Expr>, Text),
}

/// Expressions in order.
#[cycle(expr)]
#[derive(Debug, Drop)]
pub struct Exprs {
    pub items: Vec<Expr>,
}

// Sums, products and names behind dots group from the left, and may be as long as a source: their left sides are
// let go by a loop, so that a long chain doesn't run out of stack.
impl Drop for Expr {
    #[cycle(expr)]
    fn drop(mut self) {
        loop {
            match self {
                Expr::Number(_) => return,
                Expr::Quoted(_) => return,
                Expr::Name(_) => return,
                Expr::Or(_) => return,
                Expr::And(_) => return,
                Expr::Not(operand) => self = Box::into_inner(operand),
                Expr::Compare(left, _, _) => self = Box::into_inner(left),
                Expr::Add(left, _) => self = Box::into_inner(left),
                Expr::Sub(left, _) => self = Box::into_inner(left),
                Expr::Mul(left, _) => self = Box::into_inner(left),
                Expr::Dot(left, _) => self = Box::into_inner(left),
            }
        }
    }
}
