ghost use Rattle.std.specs.Prelude.{◌≡◌, []};
ghost use Rattle.sh_ir.specs.Faults.{limit_faults};
ghost use Rattle.sh_ir_tests.specs.Network.{the_network};
ghost use Rattle.sh_verify_tests.specs.Cuts.{CutsRight};
ghost use Rattle.sh_verify_tests.specs.Modules.{AreModulesRight, CountsRight, LengthsRight, module_samples};
ghost use Rattle.sh_verify_tests.specs.Samples.{AreRight, device_counts, device_samples, element_samples, in_device, in_source, layout_samples, region_samples, return_samples, source_counts, source_samples, structured_samples};

/// The law that each sample of an operation breaks the rules that it says: of element operations and
/// creators, slices and reshapes, structured operations, regions, what stands in source form alone, what
/// stands in device form alone, generics of three and four and of nine and ten inputs, and returns.
pub fn operations_break_rules()
    ensures elements { AreRight in_source element_samples }
    ensures layouts { AreRight in_source layout_samples }
    ensures structured { AreRight in_source structured_samples }
    ensures regions { AreRight in_source region_samples }
    ensures sources { AreRight in_source source_samples }
    ensures devices { AreRight in_device device_samples }
    ensures source_counts { AreRight in_source source_counts }
    ensures device_counts { AreRight in_device device_counts }
    ensures returns { AreRight in_source return_samples }
{}

/// The law that each sample of a module breaks the limits and rules that it says, that operations are
/// counted as they should be, and that 10,000 of them are few enough and 10,001 aren't.
pub fn modules_break_rules()
    ensures modules { AreModulesRight module_samples }
    ensures counts { CountsRight }
    ensures lengths { LengthsRight }
{}

/// The law that the types of a function with a cut of eight cells over two devices are those of local
/// tensors of four, that those of the whole tensor aren't and make a fault at the function, and that
/// nothing is asked in source form.
pub fn cuts_give_local_types()
    ensures { CutsRight }
{}

/// The law that the network of two layers keeps the limits.
pub fn network_keeps_limits()
    ensures { limit_faults the_network ≡ [] }
{}
