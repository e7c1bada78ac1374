//! Laws of what templates mean, each the contract of a function without a body.

ghost use Rattle.tow_language.specs.Laws.{TemplatesSpelled, TemplateFaults};

/// A template is read from exactly the texts that spell it, in some form that the table allows.
pub fn templates_spelled()
    ensures { TemplatesSpelled }
{}

/// A text is refused at the place up to which it spells pieces and where no further one stands.
pub fn template_faults()
    ensures { TemplateFaults }
{}
