ghost use Rattle.std.specs.Prelude.{◌≡◌};
ghost use Rattle.sh_grid.specs.Grid.{GridValue, IsGrid};
ghost use Rattle.sh_ir.specs.declared.classification.OpClass.TheVariants as class;
ghost use Rattle.sh_ir.specs.declared.operations.Op.{Op};
ghost use Rattle.sh_ir.specs.Classes.{class_of};
ghost use Rattle.sh_iface.specs.Elements.{Element, IsElement, IsElementOf, IsSomeElement, element_meaning};
ghost use Rattle.sh_iface.specs.Lawful.{IsLawful, IsNest};
ghost use Rattle.sh_iface.specs.LoopNest.{LoopNest};
ghost use Rattle.sh_iface.specs.Valid.{IsValid, unsplit_loops};
ghost use Rattle.sh_iface.specs.Verified.{IsOfVerified};
ghost use Rattle.sh_iface.specs.Whole.{IsInterfaceOf};

/// Of every operation whose loops are in order, the option that splits no loop is valid.
pub fn unsplit_is_valid()
    ensures { (nest : LoopNest) → IsNest nest → (g : GridValue) → IsGrid g.extents
        → IsValid nest g (unsplit_loops nest) }
{}

/// Every element operation keeps the laws of an interface, whatever the number of its operands; and
/// a verified operation of the class is one of these, whose interface is that of the table.
pub fn element_laws()
    ensures lawful { (e : Element) → IsElement e → IsLawful (element_meaning e) }
    ensures verified { (op : Op) → class_of op.kind ≡ class.Element → IsOfVerified op
        → IsSomeElement op }
    ensures interface { (op : Op) (e : Element) → IsElementOf op e
        → IsInterfaceOf op (element_meaning e) }
{}
