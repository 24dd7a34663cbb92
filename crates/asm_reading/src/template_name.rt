//! The names of templates.

ghost use Rattle.std.specs.Prelude.{◌≡◌};
ghost use Rattle.std.specs.List.{find};
ghost use Rattle.std.specs.Str.{bytes_eq};
ghost use Rattle.asm_reading.specs.Lines.{template_name_text, template_name_of};

use crate::line::TemplateName;

const ALL: [TemplateName; 10] = [
    TemplateName::Mii,
    TemplateName::Mlx,
    TemplateName::Mmi,
    TemplateName::Mfi,
    TemplateName::Mmf,
    TemplateName::Mib,
    TemplateName::Mbb,
    TemplateName::Bbb,
    TemplateName::Mmb,
    TemplateName::Mfb,
];

/// The name of a template, after `{`.
fn template_name_text(name: TemplateName) -> &'static [u8]
    ensures { result.now ≡ template_name_text name }
{
    match name {
        TemplateName::Mii => b".mii",
        TemplateName::Mlx => b".mlx",
        TemplateName::Mmi => b".mmi",
        TemplateName::Mfi => b".mfi",
        TemplateName::Mmf => b".mmf",
        TemplateName::Mib => b".mib",
        TemplateName::Mbb => b".mbb",
        TemplateName::Bbb => b".bbb",
        TemplateName::Mmb => b".mmb",
        TemplateName::Mfb => b".mfb",
    }
}

fn find_template_name(names: &[TemplateName], text: &[u8]) -> Option<TemplateName>
    ensures { result ≡ find (λ s. bytes_eq (template_name_text s) text.now) names.now }
{
    for name in names {
        if template_name_text(*name) == text {
            return Some(*name);
        }
    }
    None
}

/// The template whose name this is.
pub(crate) fn template_name_of(text: &[u8]) -> Option<TemplateName>
    ensures { result ≡ template_name_of text.now }
{
    find_template_name(&ALL, text)
}
