//! Laws of labels.
ghost use Rattle.reo_drawing.specs.label_texts.Laws.{LabelsStayShut};

/// No text ends its label before its end: as it stands in one, no quote stands behind no
/// backslash, no backslash stands last by itself, and each byte is from the space to the tilde.
pub fn labels_stay_shut()
    ensures { LabelsStayShut }
{}
