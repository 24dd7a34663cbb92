//! The templates that a template's name stands for.

ghost use Rattle.std.specs.Prelude.{◌≡◌};
ghost use Rattle.asm_build.specs.TemplateNames.{template_of, units_named};

use asm_text::TemplateName;
use ia_insn::Unit;
use ia_program::Template;

/// The units of the three slots.
pub(crate) fn units_named(name: TemplateName) -> [Unit; 3]
    ensures { result ≡ units_named name }
{
    match name {
        TemplateName::Mii => [Unit::M, Unit::I, Unit::I],
        TemplateName::Mlx => [Unit::M, Unit::L, Unit::X],
        TemplateName::Mmi => [Unit::M, Unit::M, Unit::I],
        TemplateName::Mfi => [Unit::M, Unit::F, Unit::I],
        TemplateName::Mmf => [Unit::M, Unit::M, Unit::F],
        TemplateName::Mib => [Unit::M, Unit::I, Unit::B],
        TemplateName::Mbb => [Unit::M, Unit::B, Unit::B],
        TemplateName::Bbb => [Unit::B, Unit::B, Unit::B],
        TemplateName::Mmb => [Unit::M, Unit::M, Unit::B],
        TemplateName::Mfb => [Unit::M, Unit::F, Unit::B],
    }
}

/// The template with this name and stops after the slots that are marked. None where there is none.
pub(crate) fn template_of(
    name: TemplateName,
    first: bool,
    second: bool,
    third: bool,
) -> Option<Template>
    ensures { result ≡ template_of name first second third }
{
    Template::with(units_named(name), [first, second, third])
}
