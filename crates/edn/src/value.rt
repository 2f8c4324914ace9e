ghost use Rattle.std.specs.Prelude.{◌≡◌, ◌↔◌, IsTrue, option_map};
ghost use Rattle.std.specs.Option.{option_copied};
ghost use Rattle.edn.specs.Value.{nil};
ghost use Rattle.edn.specs.Parts.{int_in, name_in, elements_in, value_in, is_keyword, value_at};
ghost use Rattle.edn.specs.View.{value_of, values_of, entries_of, found_value};

/// An element of a text. A keyword has no colon here. The order of maps and sets means nothing: compare with [`same`](crate::same).
#[derive(Drop)]
pub enum Edn {
    Nil,
    Bool(bool),
    Int(i64),
    Str(String),
    Keyword(String),
    Vector(Vec<Edn>),
    Map(Vec<(Edn, Edn)>),
    Set(Vec<Edn>),
}

impl Edn {
    pub fn is_nil(&self) -> bool
        ensures { IsTrue result ↔ (value_of self.now ≡ nil) }
    {
        matches!(self, Edn::Nil)
    }

    /// The integer, if this is one.
    pub fn as_int(&self) -> Option<i64>
        ensures { result ≡ int_in (value_of self.now) }
    {
        match self {
            Edn::Int(number) => Some(*number),
            _ => None,
        }
    }

    /// The name of the keyword, without its colon, if this is one.
    pub fn as_keyword(&self) -> Option<&str>
        ensures { option_copied result ≡ name_in (value_of self.now) }
    {
        match self {
            Edn::Keyword(name) => Some(name.as_str()),
            _ => None,
        }
    }

    /// The elements of the vector, in order, if this is one.
    pub fn as_slice(&self) -> Option<&[Edn]>
        ensures { option_map values_of (option_copied result) ≡ elements_in (value_of self.now) }
    {
        match self {
            Edn::Vector(elements) => Some(elements.as_slice()),
            _ => None,
        }
    }

    /// The value of the map's first pair whose key is the keyword of this name, if there is one. Costs one pass over the pairs.
    pub fn get(&self, name: &str) -> Option<&Edn>
        ensures { found_value result ≡ value_in name.now (value_of self.now) }
    {
        match self {
            Edn::Map(pairs) => value_at(pairs.as_slice(), name),
            _ => None,
        }
    }
}

fn is_keyword(element: &Edn, name: &str) -> bool
    ensures { result ≡ is_keyword name.now (value_of element.now) }
{
    match element {
        Edn::Keyword(text) => text.as_str() == name,
        _ => false,
    }
}

// The value of the first pair whose key is the keyword of this name.
fn value_at<'a>(pairs: &'a [(Edn, Edn)], name: &str) -> Option<&'a Edn>
    ensures { found_value result ≡ value_at name.now (entries_of pairs.now) }
{
    for pair in pairs {
        if is_keyword(&pair.0, name) {
            return Some(&pair.1);
        }
    }
    None
}
