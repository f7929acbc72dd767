// Where a node's value comes from in a phase, and repeated loads (codegen.rs, `control_sources`, `sample_sources` and `canonical`).
ghost use Rattle.std.specs.Prelude.{◌≡◌, ◌+◌, ◌≤◌, ◌<◌, get_or};
ghost use Rattle.tables.specs.Loops.{turns};
ghost use Rattle.block.specs.Block.{code};
ghost use Rattle.plan.specs.Layout.{IsLent, slots_at};
ghost use Rattle.plan.specs.SourceLaws.{control_code, load_code, source_code, place_word, canonical_node};
ghost use Rattle.plan.specs.Source.{source_number, option_number};

use crate::Flow;

// Where a value that is not computed comes from: a load, in the order of document 01's load codes, or an immediate.
#[derive(Clone, Copy, Debug, PartialEq, Eq)]
pub enum Source {
    Audio,
    Network,
    Parameter,
    State,
    Delay,
    Control,
    Immediate,
}

// The control phase loads constants and parameters alone. By the node's code, not its Kind, in which the input (0) and the network (17) are one.
#[tactic(auto, unfolding(crate::specs::SourceLaws::control_code))]
fn control_source(code: u32) -> Option<Source>
    ensures { source_number result ≡ control_code code }
{
    match code {
        1 => Some(Source::Immediate),
        2 => Some(Source::Parameter),
        _ => None,
    }
}

// What the sample phase loads of nodes that have no control slot.
#[tactic(auto, unfolding(crate::specs::SourceLaws::load_code))]
fn sample_source(code: u32) -> Option<Source>
    ensures { source_number result ≡ load_code code }
{
    match code {
        0 => Some(Source::Audio),
        1 => Some(Source::Immediate),
        2 => Some(Source::Parameter),
        3 => Some(Source::State),
        4 => Some(Source::Delay),
        17 => Some(Source::Network),
        _ => None,
    }
}

// A node's source in a phase, if it is not computed. The phase is a flag, and no enum, here and below: the definition `source_code control` has it so.
#[tactic(auto, unfolding(crate::specs::SourceLaws::source_code))]
pub fn source_of(flow: &Flow<'_>, work: &[u32], control: bool, i: usize) -> Option<Source>
    requires { IsLent flow.now work.now × (i < flow.now.sizes.nodes) }
    ensures { source_number result ≡ source_code control (get_or work.now (slots_at flow.now.sizes + i) 0) (code flow.now.nodes.now i) }
{
    let code = flow.code(i);
    if control {
        control_source(code)
    } else if work[flow.sizes.slots() + i] == 0 {
        sample_source(code)
    } else {
        Some(Source::Control)
    }
}

// The place of a load among the homes: audio, network, parameters, states, delays.
#[tactic(auto, unfolding(crate::specs::SourceLaws::place_word))]
fn home_place(source: Option<Source>, index: usize, states: usize) -> Option<usize>
    requires { (index < 4294967296) × (states ≤ 4096) }
    ensures { option_number result ≡ place_word states (source_number source) index }
{
    match source? {
        Source::Audio => Some(0),
        Source::Network => Some(1),
        Source::Parameter => Some(2 + index),
        Source::State => Some(258 + index),
        Source::Delay => Some(258 + states + index),
        Source::Control | Source::Immediate => None,
    }
}

// "Repeated loads of one source share the first node": of one node, by the homes of the nodes before it.
#[tactic(auto, unfolding(crate::specs::SourceLaws::canonical_node, crate::specs::SourceLaws::canonical_as, crate::specs::SourceLaws::fresh_word))]
fn canonical_node(flow: &Flow<'_>, work: &mut [u32], control: bool, i: usize)
    requires { IsLent flow.now work.old × (i < flow.now.sizes.nodes) }
    ensures { work.new ≡ canonical_node flow.now.sizes control flow.now.nodes.now i work.old }
{
    let sizes = flow.sizes;
    let own = i as u32;
    let source = source_of(flow, work, control, i);
    work[sizes.fresh() + i] = u32::from(source.is_some());
    let Some(place) = home_place(source, flow.first(i), sizes.states) else {
        work[sizes.canonical() + i] = own;
        return;
    };
    let home = sizes.homes() + place;
    let found = work[home];
    if found == 0 {
        work[home] = own + 1;
        work[sizes.canonical() + i] = own;
        return;
    }
    work[sizes.canonical() + i] = found - 1;
}

// Of all nodes, where no source has a home yet.
pub fn canonical(flow: &Flow<'_>, work: &mut [u32], control: bool)
    requires { IsLent flow.now work.old }
    ensures { work.new ≡ turns (canonical_node flow.now.sizes control flow.now.nodes.now) work.old flow.now.sizes.nodes }
{
    for i in 0..flow.sizes.nodes {
        canonical_node(flow, work, control, i);
    }
}
