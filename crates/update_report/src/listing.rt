//! The whole report, grouped by kind.
ghost use Rattle.std.specs.Prelude.{◌≡◌, ◌++◌, flat_map, IfOk, OnOk};
ghost use Rattle.update_report.specs.Lines.{absent_line, blocked_line, conf_line, dangling_line, link_line, mixed_line, skip_line};
ghost use Rattle.update_report.specs.Report.{findings_of, report_text, sonames_of, twin_lines};

use crate::kinds::{Findings, Skipped};
use crate::lines::{
    put_absent_line, put_blocked_line, put_conf_line, put_damaged_line, put_dangling_line,
    put_last_line, put_link_line, put_mixed_line, put_skip_line, put_twin,
};
use hwcap_dirs::Places;
use ldso_conf::ConfReport;
use lib_types::{Entry, NoMemory, Text};
use link_plan::{Mark, Planned};
use std::alloc::Global;

fn put_conf_lines(out: &mut Vec<u8>, reports: &[ConfReport]) -> Result<(), NoMemory>
    ensures { OnOk result (out.new.items ≡ out.old.items ++ flat_map conf_line reports.now) }
{
    for report in reports {
        put_conf_line(out, report)?;
    }
    Ok(())
}

fn put_absent_lines(out: &mut Vec<u8>, dirs: &[Text]) -> Result<(), NoMemory>
    ensures { OnOk result (out.new.items ≡ out.old.items ++ flat_map absent_line dirs.now) }
{
    for dir in dirs {
        put_absent_line(out, dir)?;
    }
    Ok(())
}

fn put_link_lines(out: &mut Vec<u8>, places: &Places, plan: &[Planned]) -> Result<(), NoMemory>
    ensures { OnOk result (out.new.items ≡ out.old.items ++ flat_map (link_line places.now) plan.now) }
{
    for planned in plan {
        put_link_line(out, places, planned)?;
    }
    Ok(())
}

fn put_blocked_lines(out: &mut Vec<u8>, places: &Places, marks: &[Mark]) -> Result<(), NoMemory>
    ensures { OnOk result (out.new.items ≡ out.old.items ++ flat_map (blocked_line places.now) marks.now) }
{
    for mark in marks {
        put_blocked_line(out, places, mark)?;
    }
    Ok(())
}

fn put_mixed_lines(out: &mut Vec<u8>, places: &Places, marks: &[Mark]) -> Result<(), NoMemory>
    ensures { OnOk result (out.new.items ≡ out.old.items ++ flat_map (mixed_line places.now) marks.now) }
{
    for mark in marks {
        put_mixed_line(out, places, mark)?;
    }
    Ok(())
}

fn put_skip_lines(alloc: Global, out: &mut Vec<u8>, skips: &[Skipped]) -> Result<(), NoMemory>
    ensures { OnOk result (out.new.items ≡ out.old.items ++ flat_map skip_line skips.now) }
{
    for skipped in skips {
        put_skip_line(alloc, out, skipped)?;
    }
    Ok(())
}

fn put_dangling_lines(out: &mut Vec<u8>, paths: &[Text]) -> Result<(), NoMemory>
    ensures { OnOk result (out.new.items ≡ out.old.items ++ flat_map dangling_line paths.now) }
{
    for path in paths {
        put_dangling_line(out, path)?;
    }
    Ok(())
}

fn put_twin_lines(out: &mut Vec<u8>, entries: &[Entry]) -> Result<(), NoMemory>
    ensures { OnOk result (out.new.items ≡ out.old.items ++ twin_lines (sonames_of entries.now)) }
{
    let mut before = None;
    for entry in entries {
        let soname = entry.soname.as_bytes();
        put_twin(out, before, soname)?;
        before = Some(soname);
    }
    Ok(())
}

/// The report of an update with these findings.
#[tactic(auto, unfolding(crate::specs::Report::report_text))]
pub fn report(alloc: Global, findings: &Findings<'_>) -> Result<Text, NoMemory>
    ensures { IfOk result (λ text. text ≡ report_text (findings_of findings.now)) }
{
    let places = &findings.dirs.places;
    let mut out = Vec::new(alloc);
    put_damaged_line(alloc, &mut out, findings.damaged)?;
    put_conf_lines(&mut out, findings.conf.as_slice())?;
    put_absent_lines(&mut out, findings.dirs.absent.as_slice())?;
    put_link_lines(&mut out, places, findings.plan.as_slice())?;
    put_blocked_lines(&mut out, places, findings.blocked.as_slice())?;
    put_mixed_lines(&mut out, places, findings.mixed.as_slice())?;
    put_skip_lines(alloc, &mut out, findings.skips.as_slice())?;
    put_dangling_lines(&mut out, findings.dangling.as_slice())?;
    put_twin_lines(&mut out, findings.entries.as_slice())?;
    let (entries, links) = (findings.entries.len(), findings.plan.len());
    put_last_line(alloc, &mut out, entries, links, findings.opened)?;
    Ok(Text::from_vec(out))
}
