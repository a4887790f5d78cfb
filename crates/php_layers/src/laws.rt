// What holds of any controls in layers.
ghost use Rattle.php_machine.specs.Same.{Agree};
ghost use Rattle.php_layers.specs.Layers.{Layer, layered};
ghost use Rattle.php_layers.specs.AgreeLayers.{AgreeIn, EachRelated};

/// Places in functions of two kinds, which agree, and the action by which frames end.
pub trait TwoLayers {
    ghost Action: { Type 0 };

    ghost Why: { Type 0 };

    ghost First: { Type 0 };

    ghost Second: { Type 0 };

    ghost end: { Action };

    ghost first: { Layer Action Why First };

    ghost second: { Layer Action Why Second };

    ghost related: { First → Second → Type 0 };

    ghost agree: { AgreeIn first second related };
}

/// Controls in layers agree where their places do.
pub fn layers_agree<L: TwoLayers>()
    ensures { Agree (layered L.end L.first) (layered L.end L.second) (EachRelated L.related) }
{}
