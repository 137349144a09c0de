//! The names of the faults of JSON.
ghost use Rattle.std.specs.Prelude.{◌≡◌, Some};
ghost use Rattle.record_forms.specs.Names.{json_fault_name as json_fault_name_of, json_fault_text};

use record_json::JsonFaultKind;
use std::fmt;

/// The name of a fault of JSON, as standard error shows it and `explain` knows it.
pub fn json_fault_name(kind: JsonFaultKind) -> &'static str
    ensures { result.now ≡ json_fault_name_of kind }
{
    match kind {
        JsonFaultKind::NotJson => "BadJson(NotJson)",
        JsonFaultKind::DoubledKey => "BadJson(DoubledKey)",
        JsonFaultKind::Float => "BadJson(Float)",
        JsonFaultKind::IntegerRange => "BadJson(IntegerRange)",
        JsonFaultKind::BadLink => "BadJson(BadLink)",
        JsonFaultKind::BadBytes => "BadJson(BadBytes)",
        JsonFaultKind::BadDollar => "BadJson(BadDollar)",
        JsonFaultKind::TooDeep => "BadJson(TooDeep)",
        JsonFaultKind::NotAMap => "BadJson(NotAMap)",
        JsonFaultKind::NoMemory => "BadJson(NoMemory)",
    }
}

/// A fault of JSON, shown by its name and by the way to it, where that isn't the whole text.
#[derive(Drop)]
pub struct JsonFaultText<'a> {
    pub kind: JsonFaultKind,
    pub path: &'a str,
}

impl fmt::Display for JsonFaultText<'_> {
    ghost output = { λ fault. Some (json_fault_text fault.kind fault.path.now) };

    fn fmt<W: fmt::Write>(&self, f: &mut fmt::Formatter<W>) -> fmt::Result {
        let name = json_fault_name(self.kind);
        if self.path.is_empty() {
            return f.write_str(name);
        }
        write!(f, "{name} at {}", self.path)
    }
}
