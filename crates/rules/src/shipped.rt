// What the shipped closing rules name of any list that a rule is told: theorems, each the contract of a function.
ghost use Rattle.rules.specs.Named.{WorstNamed, LowestNamed};

pub fn worst_first_names_the_worst()
    ensures { WorstNamed }
{}

pub fn earliest_first_names_the_lowest()
    ensures { LowestNamed }
{}
