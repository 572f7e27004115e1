// Truth in three values, as ISO/IEC 9075 has it.
ghost use Rattle.std.specs.Prelude.{◌≡◌};
ghost use Rattle.plan.specs.Syntax.{boolean_type, truth};
ghost use Rattle.plan.specs.Values.{Right, Valued};
ghost use Rattle.meaning.specs.Meaning.{and3, is_f, is_t, negate, not3, or3, tri};
ghost use Rattle.evaluate.specs.Truths.{value_of};

use plan::values::{Case, Value};
use plan::words::BOOLEAN;

// No Option<bool>: its `and` and `or` here are those of three values, and Option's are not.
#[derive(Clone, Copy, Debug, PartialEq, Eq, Hash)]
pub enum Truth {
    False,
    True,
    Unknown,
}

// What is known is TRUE or FALSE.
impl From<bool> for Truth {
    ghost from_gives = { λ b t. value_of t ≡ truth b };

    fn from(b: bool) -> Truth {
        if b { Truth::True } else { Truth::False }
    }
}

impl Truth {
    // The truth of a value: NULL is UNKNOWN.
    pub fn of(v: Value) -> Truth
        ensures { value_of result ≡ tri (is_t v.case) (is_f v.case) }
    {
        match v.case {
            Case::Truth(true) => Truth::True,
            Case::Truth(false) => Truth::False,
            Case::Null | Case::Integer(_) => Truth::Unknown,
        }
    }

    // A truth as a value: UNKNOWN is NULL.
    pub fn to_value(self) -> Value
        ensures right { Right result }
        ensures is { Valued result boolean_type (value_of self) }
    {
        let case = match self {
            Truth::False => Case::Truth(false),
            Truth::True => Case::Truth(true),
            Truth::Unknown => Case::Null,
        };
        Value { ty: BOOLEAN, case }
    }

    // FALSE if either is, else UNKNOWN if either is.
    pub fn and(self, other: Truth) -> Truth
        ensures { value_of result ≡ and3 (value_of self) (value_of other) }
    {
        match (self, other) {
            (Truth::True, b) => b,
            (Truth::False, _) => Truth::False,
            (Truth::Unknown, Truth::False) => Truth::False,
            (Truth::Unknown, Truth::True) => Truth::Unknown,
            (Truth::Unknown, Truth::Unknown) => Truth::Unknown,
        }
    }

    // TRUE if either is, else UNKNOWN if either is.
    pub fn or(self, other: Truth) -> Truth
        ensures { value_of result ≡ or3 (value_of self) (value_of other) }
    {
        match (self, other) {
            (Truth::False, b) => b,
            (Truth::True, _) => Truth::True,
            (Truth::Unknown, Truth::True) => Truth::True,
            (Truth::Unknown, Truth::False) => Truth::Unknown,
            (Truth::Unknown, Truth::Unknown) => Truth::Unknown,
        }
    }

    // NOT of UNKNOWN is UNKNOWN.
    pub fn not(self) -> Truth
        ensures { value_of result ≡ not3 (value_of self) }
    {
        match self {
            Truth::False => Truth::True,
            Truth::True => Truth::False,
            Truth::Unknown => Truth::Unknown,
        }
    }

    // Between and InList may be negated.
    pub fn negated(self, yes: bool) -> Truth
        ensures { value_of result ≡ negate yes (value_of self) }
    {
        if yes {
            return self.not();
        }
        self
    }
}
