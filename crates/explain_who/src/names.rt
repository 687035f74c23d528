//! The word of a name after a script, for an address that is asked for by a name.
ghost use Rattle.explain_who.specs.Words.{TellsWord};

use explain_standing::{FollowFault, carry_out_script};
use operand_texts::Name;
use script_steps::Watch;
use std::alloc::Global;
use vsm_model::Settings;

/// The word that a name stands for after a script, which runs under these settings; `None` if no statement in effect
/// defines it. A fault if the script can't be followed to its end.
pub fn word_after<P: Watch>(
    alloc: Global,
    script: &[u8],
    settings: Settings,
    name: Name,
    watch: &mut P,
) -> Result<Option<u32>, FollowFault>
    ensures { TellsWord settings script.now name result }
{
    match carry_out_script(alloc, script, settings, watch) {
        Ok(carried) => Ok(carried.bench.name(&name)),
        Err(fault) => Err(fault),
    }
}
