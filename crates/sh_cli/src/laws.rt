ghost use Rattle.std.specs.Prelude.{◌≡◌, ℕ, List, [], false};
ghost use Rattle.sh_admission.specs.Faults.{IsRefused as IsNotAdmitted};
ghost use Rattle.sh_base.specs.declared.places.Refusal.{Refusal};
ghost use Rattle.sh_ir.specs.declared.modules.Module.{Module};
ghost use Rattle.sh_parse.specs.Reads.{Reads};
ghost use Rattle.sh_print.specs.Tokens as print;
ghost use Rattle.sh_words.specs.declared.options.Tool.{Tool};
ghost use Rattle.sh_words.specs.declared.options.Tool.TheVariants.{Opt};
ghost use Rattle.sh_cli.specs.Answer.{IsAnswer, IsSound};
ghost use Rattle.sh_cli.specs.InStep.{StepsToSum};
ghost use Rattle.sh_cli.specs.VectorSum.{IsVectorSum, IsEvenlySplit};
ghost use Rattle.sh_cli.specs.declared.status.Status.{Status};
ghost use Rattle.sh_cli.specs.declared.status.Status.TheVariants.{Success};

/// Command words and a text have one answer at most: one status, and one text for the output.
pub fn one_answer()
    ensures { (tool : Tool) (words : List (List ℕ)) (text : List ℕ)
        (status other : Status) (output written : List ℕ)
        → IsAnswer tool words text status output → IsAnswer tool words text other written
        → (status ≡ other) × (output ≡ written) }
{}

/// Completeness: to a text that stands for a module within the limits, without a call, by the rules
/// and admitted, `shard-opt` without words answers `Success` and the module's text, and nothing else.
/// So where neither the input nor the output fails, [`crate::shard_main`] ends with `Success` there,
/// or for want of memory.
pub fn complete()
    ensures printed { (text : List ℕ) (m : Module) → Reads text m → IsSound m
        → ((r : Refusal) → ¬ (IsNotAdmitted m false r))
        → IsAnswer Opt [] text Success (print.text_of m) }
    ensures only { (text : List ℕ) (m : Module) → Reads text m → IsSound m
        → ((r : Refusal) → ¬ (IsNotAdmitted m false r)) → (status : Status) (output : List ℕ)
        → IsAnswer Opt [] text status output → status ≡ Success }
{}

/// A text is the source form of one sum at most: its numbers are determined by its bytes.
pub fn one_reading()
    ensures { (text : List ℕ) (extent devices other_extent other_devices : ℕ)
        → IsVectorSum text extent devices → IsVectorSum text other_extent other_devices
        → (extent ≡ other_extent) × (devices ≡ other_devices) }
{}

/// The part of the headline that speaks of running in step: on the cuts of any arguments the written
/// function is done, with the cuts of the sum, for every extent that its number of devices divides.
pub fn steps_to_sum()
    ensures { (extent devices : ℕ) → IsEvenlySplit extent devices → StepsToSum extent devices }
{}
