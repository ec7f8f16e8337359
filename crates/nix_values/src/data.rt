//! Data as a flat list of values.

ghost use Rattle.std.specs.Prelude.{◌≡◌, map};
ghost use Rattle.std.specs.Bool.{IsTrue};
ghost use Rattle.nix_values.specs.Contents.{has_parts, plain_of, entry_of, contents};

/// A value without the values inside it.
#[derive(Debug, Drop)]
pub enum Value {
    /// `null`.
    Null,
    /// `true` or `false`.
    Bool(bool),
    /// An integer.
    Integer(i64),
    /// A float, as digits with a point between them, as both Nix and JSON write it.
    Float(String),
    /// A string, or a path as a string.
    Text(String),
    /// A list, whose items follow.
    List,
    /// A set, whose attributes follow.
    Set,
}

/// A value with its depth and name.
#[derive(Debug, Drop)]
pub struct Item {
    /// The number of lists and sets around it.
    pub depth: usize,
    /// The name of the attribute whose value it is; empty in a list and for the outermost value.
    pub name: String,
    /// The value.
    pub value: Value,
}

/// Data: each value is followed by the values inside it, in order. The first item is the outermost value.
#[derive(Debug, Drop)]
pub struct Data {
    /// The values.
    pub items: Vec<Item>,
}

impl Value {
    /// Returns whether the value can contain others: whether it is a list or a set.
    pub fn has_parts(&self) -> bool
        ensures { result ≡ has_parts (plain_of self.now) }
    {
        matches!(self, Value::List | Value::Set)
    }

    // Returns whether two values are equal, without the values inside them.
    fn is_same(&self, other: &Value) -> bool
        ensures { IsTrue result → plain_of self.now ≡ plain_of other.now }
    {
        match (self, other) {
            (Value::Null, Value::Null) => true,
            (Value::List, Value::List) => true,
            (Value::Set, Value::Set) => true,
            (Value::Bool(one), Value::Bool(two)) => *one == *two,
            (Value::Integer(one), Value::Integer(two)) => *one == *two,
            (Value::Float(one), Value::Float(two)) => one.as_str() == two.as_str(),
            (Value::Text(one), Value::Text(two)) => one.as_str() == two.as_str(),
            _ => false,
        }
    }
}

impl Item {
    // Returns whether two items have equal values, depths and names.
    fn is_same(&self, other: &Item) -> bool
        ensures { IsTrue result → entry_of self.now ≡ entry_of other.now }
    {
        self.depth == other.depth
            && self.name.as_str() == other.name.as_str()
            && self.value.is_same(&other.value)
    }
}

// Returns whether all items are equal.
fn are_same(ones: &[Item], others: &[Item]) -> bool
    ensures { IsTrue result → map entry_of ones.now ≡ map entry_of others.now }
{
    if ones.len() != others.len() {
        return false;
    }
    for index in 0..ones.len() {
        if !ones[index].is_same(&others[index]) {
            return false;
        }
    }
    true
}

impl Data {
    /// Returns whether both contain the same values in the same order.
    pub fn is_same(&self, other: &Data) -> bool
        ensures { IsTrue result → contents self.now ≡ contents other.now }
    {
        are_same(self.items.as_slice(), other.items.as_slice())
    }
}
