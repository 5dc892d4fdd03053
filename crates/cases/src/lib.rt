#![tactic(auto)]

ghost use Rattle.cases.specs.Cases.{Table};

// The worked cases at the edges hold of the definitions, for every key, memory, name and floor that they speak of.
pub fn table()
    ensures table { Table }
{}
