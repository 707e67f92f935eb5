// What kind of record a tag names.
ghost use Rattle.std.specs.Prelude.{◌≡◌};
ghost use Rattle.records.specs.Kinds.{kind_of};

#[derive(Clone, Copy)]
pub enum Kind {
    ParagraphHeader,
    Text,
    Shapes,
    Layout,
    Marks,
    ControlHeader,
    ListHeader,
    ControlData,
    Other,
}

// A tag itself stays a number, with these for names (document 01's form): a stream has any from 16 to 1023.
impl Kind {
    pub const PARAGRAPH_HEADER: u32 = 66;

    pub const TEXT: u32 = 67;

    pub const SHAPES: u32 = 68;

    pub const LAYOUT: u32 = 69;

    pub const MARKS: u32 = 70;

    pub const CONTROL_HEADER: u32 = 71;

    pub const LIST_HEADER: u32 = 72;

    pub const CONTROL_DATA: u32 = 87;

    #[tactic(auto, unfolding(crate::specs::Kinds::kind_of))]
    pub fn of(tag: u32) -> Kind
        ensures { result ≡ kind_of tag }
    {
        match tag {
            Kind::PARAGRAPH_HEADER => Kind::ParagraphHeader,
            Kind::TEXT => Kind::Text,
            Kind::SHAPES => Kind::Shapes,
            Kind::LAYOUT => Kind::Layout,
            Kind::MARKS => Kind::Marks,
            Kind::CONTROL_HEADER => Kind::ControlHeader,
            Kind::LIST_HEADER => Kind::ListHeader,
            Kind::CONTROL_DATA => Kind::ControlData,
            _ => Kind::Other,
        }
    }
}
