ghost use Rattle.rules.specs.Examples.{Samples};
ghost use Rattle.rules.specs.Law.{Law};

/// That the law over all runs stands, and that there are runs of which it speaks.
pub fn law_stands()
    ensures law { Law }
    ensures samples { Samples }
{}
