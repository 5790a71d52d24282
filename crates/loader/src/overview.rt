// One pass over the sections, for the checks and for the placing: each header and name is read once.
ghost use Rattle.std.specs.Prelude.{◌≡◌, ◌≤◌};
ghost use Rattle.loader.specs.Sections.{survey};
ghost use Rattle.loader.specs.ReadOnly.{gathered};

use crate::error::ElfError;
use crate::read_only::{Extent, gather_next, no_extent};
use crate::sections::{Survey, section_at, survey_next};
use crate::validate::Rules;
use elf_parser::Elf64;

#[derive(Clone, Copy, PartialEq, Eq, Debug)]
pub struct Overview {
    pub survey: Survey,
    pub gathering: Result<Extent, ElfError>,
}

// It does not stop where the gathering refuses, since the checks count first and ask for all sections.
#[tactic(auto, using(crate::specs::Sections::survey_next, crate::specs::Sections::survey_end, crate::proofs::Onward::gather_all, crate::proofs::Onward::gather_next_lem, crate::proofs::Onward::gather_end, crate::proofs::Ascents::texts_step), unfolding(crate::specs::Sections::survey_step))]
pub(crate) fn look_over(elf: &Elf64<'_>, rules: Rules, count: u32) -> Overview
    requires { count ≤ 65536 }
    ensures { (result.survey ≡ survey elf.now.file.now elf.now.layout count) × (result.gathering ≡ gathered elf.now.file.now elf.now.layout count rules.version2 rules.config.reject_broken_elfs) }
{
    let len = elf.file.len() as u64;
    let mut v = Survey::default();
    let mut g = Ok(no_extent());
    for i in 0..count {
        let h = section_at(elf, i);
        let name = elf.section_name_part(h.sh_name);
        let surveyed = survey_next(len, i, h, name, v);
        let gathered = gather_next(elf, rules, i, h, name, g);
        v = surveyed;
        g = gathered;
    }
    Overview {
        survey: v,
        gathering: g,
    }
}
