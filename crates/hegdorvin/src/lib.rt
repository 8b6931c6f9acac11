// The library for callers in other languages: each operation once, its answer packed into one number.
#![tactic(auto)]

ghost use Rattle.std.specs.Prelude.{◌≡◌, [], ◌∷◌};
ghost use Rattle.rules.specs.Answers.{well, check_says, build_says, run_says, compare_says, judge_says, cost_says, find_says, import_says};
ghost use Rattle.rules.specs.Operations.{check_answer, build_answer, build_output, run_answer, compare_answer, compare_output, judge_answer, judged_part, cost_answer};
ghost use Rattle.rules.specs.Find.{find_answer, find_output};
ghost use Rattle.rules.specs.Kiss2.{read_kiss2_answer, read_kiss2_output};
ghost use Rattle.hegdorvin_packing.specs.Packed.{packed};

use builder::build;
use checker::check;
use comparer::compare;
use finder::find;
use hegdorvin_packing::{built, checked, compared, costed, found, imported, judged, part, ran};
use importer::read_kiss2;
use judge::{failing_part, judge};
use runner::{cost, run};

#[unsafe(no_mangle)]
pub extern "C" fn hegdorvin_check(dossier: &[u8]) -> u64
    ensures { result ≡ packed (check_says (check_answer dossier.now)) }
{
    checked(check(dossier))
}

#[unsafe(no_mangle)]
pub extern "C" fn hegdorvin_build(dossier: &[u8], out: &mut [u8]) -> u64
    ensures { (result ≡ packed (build_says (build_answer dossier.now out.old))) × (out.new ≡ build_output dossier.now out.old) }
{
    built(build(dossier, out))
}

#[unsafe(no_mangle)]
pub extern "C" fn hegdorvin_run(dossier: &[u8], unit: &[u8]) -> u64
    ensures { result ≡ packed (run_says (run_answer dossier.now unit.now)) }
{
    ran(run(dossier, unit))
}

#[unsafe(no_mangle)]
pub extern "C" fn hegdorvin_compare(dossier: &[u8], unit: &[u8], out: &mut [u8]) -> u64
    ensures { (result ≡ packed (compare_says (compare_answer dossier.now unit.now out.old))) × (out.new ≡ compare_output dossier.now unit.now out.old) }
{
    compared(compare(dossier, unit, out))
}

#[unsafe(no_mangle)]
pub extern "C" fn hegdorvin_judge(dossier: &[u8], sheet: &[u8]) -> u64
    ensures { result ≡ packed (judge_says (judge_answer dossier.now sheet.now)) }
{
    judged(judge(dossier, sheet))
}

// The part of the dossier that the judge hands back: its place and its length.
#[unsafe(no_mangle)]
pub extern "C" fn hegdorvin_judge_word(dossier: &[u8], sheet: &[u8]) -> u64
    ensures { result ≡ packed (well ((judged_part dossier.now sheet.now).place ∷ (judged_part dossier.now sheet.now).size ∷ [])) }
{
    let word = failing_part(dossier, sheet);
    part(word.place, word.size)
}

#[unsafe(no_mangle)]
pub extern "C" fn hegdorvin_cost(dossier: &[u8]) -> u64
    ensures { result ≡ packed (cost_says (cost_answer dossier.now)) }
{
    costed(cost(dossier))
}

#[unsafe(no_mangle)]
pub extern "C" fn hegdorvin_find(unit: &[u8], bound: u8, out: &mut [u8]) -> u64
    ensures { (result ≡ packed (find_says (find_answer unit.now bound out.old))) × (out.new ≡ find_output unit.now bound out.old) }
{
    found(find(unit, bound, out))
}

#[unsafe(no_mangle)]
pub extern "C" fn hegdorvin_read_kiss2(text: &[u8], out: &mut [u8]) -> u64
    ensures { (result ≡ packed (import_says (read_kiss2_answer text.now out.old))) × (out.new ≡ read_kiss2_output text.now out.old) }
{
    imported(read_kiss2(text, out))
}
