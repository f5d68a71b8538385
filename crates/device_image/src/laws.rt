ghost use Rattle.device_image.specs.Law.{MoreLeads, NewImagesStand, OneState};

use journal_core::one_list;

/// An image stands for at most one state.
pub fn one_state()
    ensures { OneState }
{
    one_list();
}

/// The image of a new device stands for its configuration, no used leaf and no manifest.
pub fn new_images_stand()
    ensures { NewImagesStand }
{}

/// One change more, whose leaf is not below the last, leads to what it makes of the state.
pub fn more_leads()
    ensures { MoreLeads }
{}
