// What both runs read of a call's signals.
ghost use Rattle.std.specs.Prelude.{◌≡◌, ◌<◌, length};
ghost use Rattle.memory.specs.Signals.{network_word};

// What a call is given and does not write: parameter values, input and network words.
#[derive(Clone, Copy)]
pub struct Signals<'a> {
    pub settings: &'a [u32],
    pub input: &'a [u32],
    pub network: &'a [u32],
}

// What a sample reads besides the memories: the audio word, the network word and the parameter values.
#[derive(Clone, Copy)]
pub struct Given<'a> {
    pub audio: u32,
    pub network: u32,
    pub settings: &'a [u32],
}

// With the flag clear no network word is looked at.
#[tactic(auto, unfolding(crate::specs::Signals::network_word))]
pub fn network_word(flag: u32, network: &[u32], t: usize) -> u32
    requires { (flag ≡ 0 → ⊥) → t < length network.now }
    ensures { result ≡ network_word flag network.now t }
{
    if flag == 0 { 0 } else { network[t] }
}

impl<'a> Signals<'a> {
    ghost use Rattle.memory.specs.Signals.{given_by};
    ghost use Rattle.memory.specs.Lent.{the_signals, the_given};

    // What sample t is given, by the block's network flag.
    pub fn given(&self, flag: u32, t: usize) -> Given<'a>
        requires input { t < length self.now.input.now }
        requires network { (flag ≡ 0 → ⊥) → t < length self.now.network.now }
        ensures { the_given result ≡ given_by flag (the_signals self.now) t }
    {
        Given {
            audio: self.input[t],
            network: network_word(flag, self.network, t),
            settings: self.settings,
        }
    }
}
