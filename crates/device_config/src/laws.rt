ghost use Rattle.device_config.specs.Image.{OneImage};

/// An image is that of one configuration: no two have it as theirs.
pub fn one_image()
    ensures { OneImage }
{}
