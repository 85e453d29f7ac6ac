//! The variables of a call, as texts `NAME=value`.
ghost use Rattle.std.specs.Prelude.{◌≡◌, map, string_bytes, option_map};
ghost use Rattle.call_words.specs.Variables.{value_of, first_value_of};

/// The value of a variable, where it has this name.
fn value_of<'a>(name: &str, var: &'a str) -> Option<&'a str>
    ensures { option_map (λ v. v.now) result ≡ value_of name.now var.now }
{
    match var.split_once('=') {
        Some((found, value)) => { if found == name { Some(value) } else { None } }
        None => None,
    }
}

/// The value of the first variable of this name.
pub fn first_value_of<'a>(name: &str, vars: &'a [String]) -> Option<&'a str>
    ensures { option_map (λ v. v.now) result ≡ first_value_of name.now (map string_bytes vars.now) }
{
    for var in vars {
        if let Some(value) = value_of(name, var.as_str()) {
            return Some(value);
        }
    }
    None
}
