// The laws of layers and piles, each as the contract of a function, so that its proof is owed.
ghost use Rattle.rewriting.specs.Laws.{LayersLawful, PilesLawful, PilesGrow, RulesKeep};
ghost use Rattle.rewriting.specs.Examples.{Examples};

// A layer over a legal list that doesn't fault has a legal list, whose history is the image of the one below.
pub fn layers_are_lawful()
    ensures { LayersLawful }
{}

// So has a pile of layers of any height.
pub fn piles_are_lawful()
    ensures { PilesLawful }
{}

// A pile with one more rule on top is a layer over the pile.
pub fn piles_grow()
    ensures { PilesGrow }
{}

// Select, shift and set duration keep the laws of row rules.
pub fn rules_keep_laws()
    ensures { RulesKeep }
{}

// The worked examples hold of the definitions.
pub fn examples_hold()
    ensures { Examples }
{}
