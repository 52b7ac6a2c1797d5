// The archive for callers in other languages: every entry of `c_interface` under its name, with the same promise (include/tallowwing.h).
#![tactic(auto)]

ghost use Rattle.std.specs.Prelude.{◌≡◌};
ghost use Rattle.c_interface.specs.Codes.{read_code, read_held, write_code, write_held, layout_code, layout_held, module_time_code, module_wires_code, plan_code, plan_held, write_plan_code, write_plan_held, read_plan_code, read_plan_held, listing_code, listing_held, show_code, show_held, read_pair_code, read_pair_held, module_lines_code};
ghost use Rattle.c_interface.specs.Codes.{write_pair_code, layout_pair_code, layout_pair_held};
ghost use Rattle.c_interface.specs.Codes.{module_time_pair_code, module_wires_pair_code, plan_pair_code, plan_pair_held};
ghost use Rattle.c_interface.specs.Codes.{budget_code, budget_held};
ghost use Rattle.pair_entries.specs.WrittenPair.{write_pair_leaves};

#[unsafe(no_mangle)]
pub extern "C" fn tallowwing_read_soc(text: &[u8], into: &mut [u8]) -> u64
    ensures { (result ≡ read_code text.now into.old) × (into.new ≡ read_held text.now into.old) }
{
    c_interface::tallowwing_read_soc(text, into)
}

#[unsafe(no_mangle)]
pub extern "C" fn tallowwing_write_soc(soc: &[u8], into: &mut [u8]) -> u64
    ensures { (result ≡ write_code soc.now into.old) × (into.new ≡ write_held soc.now into.old) }
{
    c_interface::tallowwing_write_soc(soc, into)
}

#[unsafe(no_mangle)]
pub extern "C" fn tallowwing_layout(
    soc: &[u8],
    module: u32,
    test: u32,
    width: u32,
    capture: u32,
    into: &mut [u8],
) -> u64
    ensures { (result ≡ layout_code soc.now «module» test width capture into.old) × (into.new ≡ layout_held soc.now «module» test width capture into.old) }
{
    c_interface::tallowwing_layout(soc, module, test, width, capture, into)
}

#[unsafe(no_mangle)]
pub extern "C" fn tallowwing_module_time(soc: &[u8], module: u32, width: u32, capture: u32) -> u64
    ensures { result ≡ module_time_code soc.now «module» width capture }
{
    c_interface::tallowwing_module_time(soc, module, width, capture)
}

#[unsafe(no_mangle)]
pub extern "C" fn tallowwing_module_wires(soc: &[u8], module: u32, width: u32, capture: u32) -> u64
    ensures { result ≡ module_wires_code soc.now «module» width capture }
{
    c_interface::tallowwing_module_wires(soc, module, width, capture)
}

#[unsafe(no_mangle)]
pub extern "C" fn tallowwing_plan(
    soc: &[u8],
    wires: u32,
    limit: u32,
    capture: u32,
    into: &mut [u8],
) -> u64
    ensures { (result ≡ plan_code soc.now wires limit capture into.old) × (into.new ≡ plan_held soc.now wires limit capture into.old) }
{
    c_interface::tallowwing_plan(soc, wires, limit, capture, into)
}

#[unsafe(no_mangle)]
pub extern "C" fn tallowwing_budget(
    soc: &[u8],
    wires: u32,
    limit: u32,
    capture: u32,
    tries: u64,
    into: &mut [u8],
) -> u64
    ensures { (result ≡ budget_code soc.now wires limit capture tries into.old)
        × (into.new ≡ budget_held soc.now wires limit capture tries into.old) }
{
    c_interface::tallowwing_budget(soc, wires, limit, capture, tries, into)
}

#[unsafe(no_mangle)]
pub extern "C" fn tallowwing_write_plan(from: &[u8], into: &mut [u8]) -> u64
    ensures { (result ≡ write_plan_code from.now into.old) × (into.new ≡ write_plan_held from.now into.old) }
{
    c_interface::tallowwing_write_plan(from, into)
}

#[unsafe(no_mangle)]
pub extern "C" fn tallowwing_read_plan(file: &[u8], into: &mut [u8]) -> u64
    ensures { (result ≡ read_plan_code file.now into.old) × (into.new ≡ read_plan_held file.now into.old) }
{
    c_interface::tallowwing_read_plan(file, into)
}

#[unsafe(no_mangle)]
pub extern "C" fn tallowwing_listing(input: &[u8], into: &mut [u8]) -> u64
    ensures { (result ≡ listing_code input.now into.old) × (into.new ≡ listing_held input.now into.old) }
{
    c_interface::tallowwing_listing(input, into)
}

#[unsafe(no_mangle)]
pub extern "C" fn tallowwing_show(from: &[u8], into: &mut [u8]) -> u64
    ensures { (result ≡ show_code from.now into.old) × (into.new ≡ show_held from.now into.old) }
{
    c_interface::tallowwing_show(from, into)
}

#[unsafe(no_mangle)]
pub extern "C" fn tallowwing_read_pair(base: &[u8], overlay: &[u8], into: &mut [u8]) -> u64
    ensures { (result ≡ read_pair_code base.now overlay.now into.old) × (into.new ≡ read_pair_held base.now overlay.now into.old) }
{
    c_interface::tallowwing_read_pair(base, overlay, into)
}

#[unsafe(no_mangle)]
pub extern "C" fn tallowwing_module_lines(base: &[u8], overlay: &[u8], module: u32) -> u64
    ensures { result ≡ module_lines_code base.now overlay.now «module» }
{
    c_interface::tallowwing_module_lines(base, overlay, module)
}

#[unsafe(no_mangle)]
pub extern "C" fn tallowwing_write_pair(base: &[u8], overlay: &[u8], into: &mut [u8]) -> u64
    ensures { (result ≡ write_pair_code base.now overlay.now into.old)
        × (into.new ≡ write_pair_leaves base.now overlay.now into.old) }
{
    c_interface::tallowwing_write_pair(base, overlay, into)
}

#[unsafe(no_mangle)]
pub extern "C" fn tallowwing_layout_pair(
    base: &[u8],
    overlay: &[u8],
    module: u32,
    test: u32,
    width: u32,
    capture: u32,
    into: &mut [u8],
) -> u64
    ensures { (result ≡ layout_pair_code base.now overlay.now «module» test width capture into.old)
        × (into.new ≡ layout_pair_held base.now overlay.now «module» test width capture into.old) }
{
    c_interface::tallowwing_layout_pair(base, overlay, module, test, width, capture, into)
}

#[unsafe(no_mangle)]
pub extern "C" fn tallowwing_module_time_pair(
    base: &[u8],
    overlay: &[u8],
    module: u32,
    width: u32,
    capture: u32,
) -> u64
    ensures { result ≡ module_time_pair_code base.now overlay.now «module» width capture }
{
    c_interface::tallowwing_module_time_pair(base, overlay, module, width, capture)
}

#[unsafe(no_mangle)]
pub extern "C" fn tallowwing_module_wires_pair(
    base: &[u8],
    overlay: &[u8],
    module: u32,
    width: u32,
    capture: u32,
) -> u64
    ensures { result ≡ module_wires_pair_code base.now overlay.now «module» width capture }
{
    c_interface::tallowwing_module_wires_pair(base, overlay, module, width, capture)
}

#[unsafe(no_mangle)]
pub extern "C" fn tallowwing_plan_pair(
    base: &[u8],
    overlay: &[u8],
    wires: u32,
    limit: u32,
    capture: u32,
    into: &mut [u8],
) -> u64
    ensures { (result ≡ plan_pair_code base.now overlay.now wires limit capture into.old)
        × (into.new ≡ plan_pair_held base.now overlay.now wires limit capture into.old) }
{
    c_interface::tallowwing_plan_pair(base, overlay, wires, limit, capture, into)
}
