// The path search's rules: what it finds, as definitions, and what holds of it. The crate `voice_path` has the code that follows them.
//
// Read specs/Path.antt for what the search does, specs/Nearest.antt for what that means: of all bits that end in eight zeros it finds the nearest. There is no
// code here but the type that a step looks at; each theorem is the `ensures` of an empty function, so that it cannot vanish.

#![tactic(auto)]

ghost use Rattle.voice_path_rules.specs.Nearest.{NearestPath};
ghost use Rattle.voice_path_rules.specs.Statements.{SamePaths};

// What a step has seen: the bit of the odd entry, a, and of the even one, b, each with its weight.
#[derive(Clone, Copy)]
pub struct Seen {
    pub a: u32,
    pub wa: u32,
    pub b: u32,
    pub wb: u32,
}

// The source's two ways of counting costs find the same path.
pub fn same_paths()
    ensures { SamePaths }
{}

// No other bits that end in eight zeros are coded nearer to what was received than those that the search finds.
pub fn nearest_path()
    ensures { NearestPath }
{}
